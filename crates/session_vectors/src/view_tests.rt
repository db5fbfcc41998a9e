//! A slot without a view, and one whose view is watched, refuses a row, or is let go.
use super::base::{files_of, run_over, run_over_views};
use shell_session::Status;
use std::alloc::{AllocError, Global};
use std::test::Fail;
use tree_live::{TableView, TreeView};

const WATCH: &[u8] = b"watch 0 rnbqkbnr/pppppppp/8/8/8/8/PPPPPPPP/RNBQKBNR w\n";

const WATCH_AND_UNWATCH: &[u8] =
    b"watch 0 rnbqkbnr/pppppppp/8/8/8/8/PPPPPPPP/RNBQKBNR w\nunwatch 0\n";

/// A game with another first move than the one that is there.
const WATCH_AND_IMPORT: &[u8] =
    b"watch 0 rnbqkbnr/pppppppp/8/8/8/8/PPPPPPPP/RNBQKBNR w\nimport <<X\n1. d4 *\nX\n";

/// Two first moves that are there before a third comes in.
const IMPORT_WATCH_AND_IMPORT: &[u8] =
    b"import <<X\n1. d4 *\nX\nwatch 0 rnbqkbnr/pppppppp/8/8/8/8/PPPPPPPP/RNBQKBNR w\nimport <<X\n1. c4 *\nX\n";

/// Each kind of command that may change a row. A tag and a deletion change none, `clear` and `reset` the one, each game
/// that comes in one, and a game that goes one.
const FOLLOW: &[u8] =
    b"watch 0 rnbqkbnr/pppppppp/8/8/8/8/PPPPPPPP/RNBQKBNR w\ntag 0 White A\nclear\nreset\nimport <<X\n1. d4 *\n\n1. e4 *\nX\ndelete 1\ncompact\n";

/// Sessions over a base of one game and one view, which refuses the put of this number, if of any. Each has what is
/// written. If the view is still there, it also has how many rows the view shows at the end and how many changes it was
/// told. A slot that is watched is cleared first.
type Session = (
    &'static [u8],
    Option<u64>,
    &'static [u8],
    Option<(usize, u64)>,
);

static DONE: [Session; 4] = [
    (
        WATCH,
        None,
        b"base 1 games 0 mended\nwatching 0\n",
        Some((1, 2)),
    ),
    (
        WATCH_AND_UNWATCH,
        None,
        b"base 1 games 0 mended\nwatching 0\nunwatched 0\n",
        None,
    ),
    (
        WATCH_AND_IMPORT,
        Some(2),
        b"base 1 games 0 mended\nwatching 0\nadded 1\nimported 1 refused 0\nunsaved\n",
        Some((2, 3)),
    ),
    (
        FOLLOW,
        None,
        b"base 1 games 0 mended\nwatching 0\ntagged 0\nfilter 0 of 1\nfilter 1 of 1\n\
added 1\nadded 2\nimported 2 refused 0\ndeleted 1\ncompacted 3 to 2\n",
        Some((1, 7)),
    ),
];

static OUT_OF_MEMORY: [Session; 3] = [
    (WATCH, Some(0), b"base 1 games 0 mended\n", Some((0, 1))),
    (
        WATCH_AND_IMPORT,
        Some(1),
        b"base 1 games 0 mended\nwatching 0\nadded 1\n",
        Some((1, 2)),
    ),
    (
        IMPORT_WATCH_AND_IMPORT,
        Some(2),
        b"base 1 games 0 mended\nadded 1\nimported 1 refused 0\nwatching 0\nadded 2\n",
        Some((2, 3)),
    ),
];

const NO_VIEW: &[u8] = b"base 1 games 0 mended\nerror: no view 0\n";

// The rows, of which the proofs of the tests have to know nothing.
fn done() -> &'static [Session] {
    &DONE
}

fn out_of_memory() -> &'static [Session] {
    &OUT_OF_MEMORY
}

/// How many rows the one view shows and how many changes it was told, if it is there.
fn shown(views: &[Option<Box<dyn TreeView>>]) -> Option<(usize, u64)> {
    match views {
        [Some(view)] => Some((view.len(), view.told())),
        _ => None,
    }
}

/// Whether a session ends so.
fn ends(alloc: Global, session: &Session, wanted: Status) -> Result<bool, AllocError> {
    let (script, refuse, text, view_left) = *session;
    let mut views: Vec<Option<Box<dyn TreeView>>> = Vec::new(alloc);
    let view: Box<dyn TreeView> = Box::new(alloc, TableView::new(Vec::new(alloc), refuse))?;
    views.push(Some(view))?;
    let mut files = files_of(alloc, 1, &[])?;
    let (status, written) = run_over_views(alloc, &mut files, script, &mut views)?;
    Ok(status == wanted && written.as_slice() == text && shown(views.as_slice()) == view_left)
}

#[test]
fn a_view_shows_its_rows_until_it_is_let_go(rt: HostRuntime) -> Result<(), Fail> {
    for session in done() {
        assert!(rt; ends(rt.alloc(), session, Status::Done)?);
    }
    Ok(())
}

#[test]
fn ends_where_a_view_refuses_a_row(rt: HostRuntime) -> Result<(), Fail> {
    for session in out_of_memory() {
        assert!(rt; ends(rt.alloc(), session, Status::Memory)?);
    }
    Ok(())
}

#[test]
fn a_slot_without_a_view_shows_no_tree(rt: HostRuntime) -> Result<(), Fail> {
    let mut files = files_of(rt.alloc(), 1, &[])?;
    let (status, written) = run_over(rt.alloc(), &mut files, WATCH)?;
    assert!(rt; status == Status::Done);
    assert!(rt; written.as_slice() == NO_VIEW);
    let mut views = Vec::new(rt.alloc());
    views.push(None)?;
    let (status, written) = run_over_views(rt.alloc(), &mut files, WATCH, &mut views)?;
    assert!(rt; status == Status::Done);
    assert!(rt; written.as_slice() == NO_VIEW);
    assert!(rt; views.len() == 1);
    Ok(())
}
