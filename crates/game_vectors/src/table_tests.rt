//! The first faults of tables.
use chess_text::SanFault;
use eco_class::{EcoError, EcoFault, EcoTable, EcoWhat};
use std::alloc::Global;

// A text that is no table, and its first fault.
struct Row {
    text: &'static [u8],
    line: u32,
    what: EcoWhat,
}

static ROWS: [Row; 11] = [
    Row {
        text: b"Z10 e4",
        line: 1,
        what: EcoWhat::Code,
    },
    Row {
        text: b"C20 e4 e5\nC21 e4 e5",
        line: 2,
        what: EcoWhat::Twice(1),
    },
    // All lines are counted, and another way to the same position is the same end.
    Row {
        text: b"\n# x\n\r\nD00 d4 d5 e4\n\nB01 e4 d5 d4",
        line: 6,
        what: EcoWhat::Twice(4),
    },
    Row {
        text: b"A00\nA01 # x",
        line: 2,
        what: EcoWhat::San(SanFault::Shape),
    },
    Row {
        text: b"A00\nA01",
        line: 2,
        what: EcoWhat::Twice(1),
    },
    Row {
        text: b"B00 e4 Ke7",
        line: 1,
        what: EcoWhat::San(SanFault::NoMove),
    },
    Row {
        text: b"A05 Nf3 Nf6 d3 d6 Nd2",
        line: 1,
        what: EcoWhat::San(SanFault::Two),
    },
    // Move numbers and a second carriage return are no moves, and a comment has no blank before it.
    Row {
        text: b"B00 1. e4",
        line: 1,
        what: EcoWhat::San(SanFault::Shape),
    },
    Row {
        text: b"B00 e4\r\r\n",
        line: 1,
        what: EcoWhat::San(SanFault::Shape),
    },
    Row {
        text: b" # x",
        line: 1,
        what: EcoWhat::Code,
    },
    // The first line and the first word.
    Row {
        text: b"B00 e5 1. Ke7\nZ10",
        line: 1,
        what: EcoWhat::San(SanFault::NoMove),
    },
];

// The rows, of which the proofs of the tests have to know nothing.
fn rows() -> &'static [Row] {
    &ROWS
}

fn is_refused(alloc: Global, row: &Row) -> bool {
    match EcoTable::read(alloc, row.text.split_at(row.text.len().min(2000)).0) {
        Err(EcoError::Bad(fault)) => {
            fault
                == EcoFault {
                    line: row.line,
                    what: row.what,
                }
        }
        _ => false,
    }
}

// The first row that is not refused so.
fn misread(alloc: Global, rows: &'static [Row]) -> Option<&'static [u8]> {
    for row in rows {
        if !is_refused(alloc, row) {
            return Some(row.text);
        }
    }
    None
}

#[test]
fn first_faults(rt: HostRuntime) {
    assert!(rt; misread(rt.alloc(), rows()).is_none());
}
