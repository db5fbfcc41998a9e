//! What a run does and how far it is, on one line of standard error.
use std::cell::Cell;
use std::fmt;
use std::fmt::{Display, Formatter};
use std::io::IsTerminal;
use std::time::{Duration, Instant};

/// How many milliseconds a run is quiet.
const QUIET: u64 = 1000;

/// How many milliseconds what was said stands at least.
const STANDS: u64 = 100;

/// How many bytes the header of an index takes, and each of its entries.
const HEADER: usize = 182;

const ENTRY: usize = 47;

/// Takes away what stands on the line.
const CLEAR: &str = "\r\x1b[K";

/// What is said where somebody types, before the first input.
const GREETING: &str = "type commands, one a line (--help lists them); quit or Ctrl-D leaves";

/// The line that says how far a run is, if standard error is a terminal, once the run takes more than a second.
///
/// It is short, and the cursor stands at its beginning, so that what somebody else says there covers it.
#[derive(Drop)]
pub struct ProgressLine<'r> {
    rt: &'r HostRuntime,
    // When the run began; none if nothing is said.
    began: Option<Instant>,
    // How long after that something may be said again.
    next: Cell<Duration>,
    shown: Cell<bool>,
    progress: Cell<Progress>,
    // Whether what to type was said.
    greeted: Cell<bool>,
    // Whether what is typed, and the text, stand on the same terminal.
    typed: bool,
    text: bool,
}

/// How far a run is.
#[derive(Clone, Copy)]
struct Progress {
    work: Work,
    // The games of the base when it was opened, the bytes that their records take one by one, and how many records were read since.
    games: u32,
    records: u64,
    read: u64,
    // The place in the games file that was read last, and the file's length.
    place: u64,
    end: u64,
    // The games that were added to the games file, and those that were copied to a new one.
    added: u64,
    copied: u64,
    // The bytes of the input that were read.
    input: u64,
    // The pages that were written, and how many there are.
    written: u64,
    pages: u64,
}

/// What a run does.
#[derive(Clone, Copy, PartialEq, Eq)]
enum Work {
    Opening,
    Reading,
    Adding,
    Compacting,
    Mending,
    Saving,
    Writing,
}

impl<'r> ProgressLine<'r> {
    /// The line of a run that begins. It is not shown yet.
    pub fn new(rt: &'r HostRuntime) -> ProgressLine<'r> {
        ProgressLine::of_work(rt, Work::Opening)
    }

    /// The line of a run that makes a new base of an old one.
    pub fn of_mending(rt: &'r HostRuntime) -> ProgressLine<'r> {
        ProgressLine::of_work(rt, Work::Mending)
    }

    fn of_work(rt: &'r HostRuntime, work: Work) -> ProgressLine<'r> {
        let began = if rt.stderr().is_terminal() {
            Instant::now(rt).ok()
        } else {
            None
        };
        let progress = Progress {
            work,
            games: 0,
            records: 0,
            read: 0,
            place: 0,
            end: 0,
            added: 0,
            copied: 0,
            input: 0,
            written: 0,
            pages: 0,
        };
        ProgressLine {
            rt,
            began,
            next: Cell::new(Duration::from_millis(QUIET)),
            shown: Cell::new(false),
            progress: Cell::new(progress),
            greeted: Cell::new(false),
            typed: rt.stdin().is_terminal(),
            text: rt.stdout().is_terminal(),
        }
    }

    /// The index was loaded.
    pub fn loaded(&self, index: &[u8]) {
        self.tell(Progress {
            games: games_in(index),
            records: records_in(index),
            ..self.progress.get()
        });
    }

    /// The length of the games file was asked.
    pub fn measured(&self, end: u64) {
        self.tell(Progress {
            end,
            ..self.progress.get()
        });
    }

    /// A record is read at this place of the games file.
    #[inline]
    pub fn read(&self, place: u64) {
        if self.began.is_none() {
            // Nothing is said, and a search asks for many records.
            return;
        }
        let before = self.progress.get();
        let work = match before.work {
            Work::Opening | Work::Compacting | Work::Mending => before.work,
            _ => Work::Reading,
        };
        self.tell(Progress {
            work,
            read: before.read.saturating_add(1),
            place,
            ..before
        });
    }

    /// A record is added to the games file.
    pub fn added(&self, bytes: usize) {
        let before = self.progress.get();
        self.tell(Progress {
            work: Work::Adding,
            added: before.added.saturating_add(1),
            records: before.records.saturating_add(bytes as u64),
            end: before.end.saturating_add(bytes as u64),
            ..before
        });
    }

    /// Begins a new games file. If games share records, and a compaction makes it more than twice the old one, a
    /// message tells it.
    pub fn begun(&self) {
        let before = self.progress.get();
        let work = match before.work {
            Work::Mending => Work::Mending,
            _ => Work::Compacting,
        };
        if work == Work::Compacting && before.records / 2 > before.end {
            self.clear();
            let _ = eprintln!(self.rt;
                "the games share records: the new games file takes up to {} bytes, and the old one has {}",
                before.records, before.end
            );
        }
        self.tell(Progress {
            work,
            copied: 0,
            ..before
        });
    }

    /// A record is added to the new games file.
    pub fn copied(&self) {
        let before = self.progress.get();
        self.tell(Progress {
            copied: before.copied.saturating_add(1),
            ..before
        });
    }

    /// Files are about to be replaced.
    pub fn saving(&self) {
        self.tell(Progress {
            work: Work::Saving,
            ..self.progress.get()
        });
    }

    /// So many of these pages were written.
    pub fn wrote(&self, written: u64, pages: u64) {
        self.tell(Progress {
            work: Work::Writing,
            written,
            pages,
            ..self.progress.get()
        });
    }

    /// The input is about to be read: no line stands where somebody types, and what to type is said once.
    pub fn before_input(&self) {
        if self.typed {
            self.clear();
            if self.began.is_some() && !self.greeted.get() {
                self.greeted.set(true);
                let _ = eprintln!(self.rt; "{GREETING}");
            }
        }
    }

    /// So many bytes of the input were read.
    pub fn taken(&self, bytes: usize) {
        let before = self.progress.get();
        self.progress.set(Progress {
            input: before.input.saturating_add(bytes as u64),
            ..before
        });
    }

    /// A text is about to be written, so the base is open: no line stands where it goes.
    pub fn before_text(&self) {
        if self.text {
            self.clear();
        }
        let before = self.progress.get();
        if before.work == Work::Opening {
            self.progress.set(Progress {
                work: Work::Reading,
                ..before
            });
        }
    }

    /// Takes the line away.
    pub fn clear(&self) {
        if self.shown.get() {
            self.shown.set(false);
            let _ = eprint!(self.rt; "{CLEAR}");
        }
    }

    // Keeps how far the run is, and says it when it is time to.
    fn tell(&self, progress: Progress) {
        self.progress.set(progress);
        let Some(began) = self.began else {
            return;
        };
        let Ok(now) = began.elapsed(self.rt) else {
            return;
        };
        if now >= self.next.get() {
            self.next
                .set(now.saturating_add(Duration::from_millis(STANDS)));
            self.shown.set(true);
            let _ = eprint!(self.rt; "{CLEAR}{progress}\r");
        }
    }
}

// The number of games in the header of an index.
fn games_in(index: &[u8]) -> u32 {
    match index.get(14..17) {
        Some([high, middle, low]) => u32::from_be_bytes([0, *high, *middle, *low]),
        _ => 0,
    }
}

// The bytes that the records of all games in an index take, each counted for itself.
fn records_in(index: &[u8]) -> u64 {
    let mut records: u64 = 0;
    for entry in index.get(HEADER..).unwrap_or(&[]).chunks_exact(ENTRY) {
        records = records.saturating_add(record_len(entry));
    }
    records
}

// The length of a game's record, of which an entry has 17 bits: the 16 low ones behind the record's place, and one in the byte behind them.
fn record_len(entry: &[u8]) -> u64 {
    match entry {
        [_, _, _, _, high, low, more, ..] => {
            u64::from(u16::from_be_bytes([*high, *low])) + (u64::from(*more >> 7) << 16)
        }
        _ => 0,
    }
}

impl Progress {
    // How much of the games file lies before the place that was read last, of a hundred.
    fn percent(&self) -> u64 {
        self.place / (self.end / 100 + 1)
    }

    // How many millions of bytes of the input were read.
    fn megabytes(&self) -> u64 {
        self.input / 1_000_000
    }
}

impl Display for Progress {
    fn fmt<W: fmt::Write>(&self, f: &mut Formatter<W>) -> fmt::Result {
        match self.work {
            Work::Opening => write!(f, "opening: {} of {} games", self.read, self.games),
            Work::Reading => write!(f, "reading: {}% of the games file", self.percent()),
            Work::Adding => write!(
                f,
                "adding: {} games, {} MB read",
                self.added,
                self.megabytes()
            ),
            Work::Compacting => write!(
                f,
                "compact: {} games, {}% read",
                self.copied,
                self.percent()
            ),
            Work::Mending => write!(
                f,
                "mending: {} games, {}% read",
                self.copied,
                self.percent()
            ),
            Work::Saving => f.write_str("saving"),
            Work::Writing => write!(f, "writing: {} of {} pages", self.written, self.pages),
        }
    }
}
