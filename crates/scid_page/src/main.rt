//! `scid_page [--depth D] [--least N] [--only ITEMS] [--from BOARD SIDE] BASE FOLDER`: makes of a Scid base a folder of linked pages.
#![tactic(auto)]

ghost use Rattle.std.specs.Prelude.{◌≡◌, ◌≤◌, IfOk, length};
ghost use Rattle.base_core.specs.Represents.{IsSound, extents_of};
ghost use Rattle.sig_index.specs.Games.{AreWithin};
ghost use Rattle.scid_page.specs.Only.{games_asked};

mod end;
mod folder;
mod making;
mod messages;
mod names;
mod only;
mod own;
mod pages;
mod shelf;
mod words;

use base_core::Base;
use base_files::{Files, Sink, write_all};
use end::End;
use folder::Folder;
use game_filter::Filter;
use head_search::HeadQuery;
use making::{Asked, make_book};
use messages::{HELP, VERSION, message};
use names::{names_read, openings_read};
use only::{games_asked, query_read};
use shelf::Filling;
use sig_index::Games;
use std::alloc::Global;
use std::env;
use std::io::ErrorKind;
use std::process::ExitCode;
use std_devices::{DiskFiles, StdSink, hold_standard_streams};
use watched_devices::{ProgressLine, Watched};
use words::{Wanted, words_read};

/// How long a record may be, and one byte more.
const BLOCK: usize = 131_072;

fn main(rt: HostRuntime) -> ExitCode {
    hold_standard_streams(&rt);
    match answered(&rt) {
        Ok(()) => ExitCode::from(0),
        Err(end) => told(&rt, &end),
    }
}

// Answers the single words `--help` and `--version`, and makes the pages for all others.
fn answered(rt: &HostRuntime) -> Result<(), End> {
    let words = given(rt)?;
    match words.as_slice() {
        [word] if word.as_str() == "--help" => Ok(print!(rt; "{HELP}")?),
        [word] if word.as_str() == "--version" => Ok(print!(rt; "{VERSION}")?),
        words => match words_read(words) {
            Some(wanted) => run_asked(rt, &wanted),
            None => Err(End::Usage),
        },
    }
}

// The words after the program's name.
fn given(rt: &HostRuntime) -> Result<Vec<String>, End> {
    match env::args(rt) {
        Ok(args) => args.skip(1).collect(rt.alloc()).map_err(|_| End::Memory),
        Err(error) if error.kind() == ErrorKind::OutOfMemory => Err(End::Memory),
        Err(_) => Err(End::Usage),
    }
}

// Makes the pages that are asked for.
fn run_asked<'a>(rt: &'a HostRuntime, wanted: &'a Wanted<'a>) -> Result<(), End> {
    let alloc = rt.alloc();
    let query = query_read(alloc, wanted.only)?;
    let names = names_read(rt, wanted.names)?;
    let openings = openings_read(alloc, names.as_slice())?;
    let folder = Folder::look(rt, alloc, wanted.folder, wanted.existing)?;
    run(
        rt,
        &Asked {
            wanted,
            query,
            openings,
            folder,
        },
    )
}

// Makes the pages of the real files, and says how far it is.
fn run(rt: &HostRuntime, asked: &Asked<'_>) -> Result<(), End> {
    let line = ProgressLine::new(rt);
    let mut files = Watched::new(DiskFiles::new(rt.alloc(), rt), &line);
    let mut out = Watched::new(StdSink::new(rt.stdout()), &line);
    let made = make(rt, asked, &mut files, &mut out, &line);
    files.into_device().close();
    let flushed = out.into_device().flush();
    line.clear();
    made?;
    match flushed {
        Ok(()) => Ok(()),
        Err(error) => Err(End::from(error.of_output())),
    }
}

// Opens the base, says what it has, and makes its pages.
fn make<F: Files, K: Sink>(
    rt: &HostRuntime,
    asked: &Asked<'_>,
    files: &mut F,
    out: &mut K,
    line: &ProgressLine<'_>,
) -> Result<(), End> {
    let alloc = rt.alloc();
    if let Err(error) = files.choose(asked.wanted.base, false) {
        return Err(End::from(error.of_files()));
    }
    let mut block = vec![in alloc; 0; BLOCK]?;
    let (base, mended) = open(alloc, files, block.as_mut_slice())?;
    let opened = say_opened(alloc, out, base.len(), mended);
    if opened.is_err() {
        return opened;
    }
    make_chosen(rt, asked, &base, files, out, line, block.as_mut_slice())
}

// Makes the pages of the games of a base that are asked for.
fn make_chosen<F: Files, K: Sink>(
    rt: &HostRuntime,
    asked: &Asked<'_>,
    base: &Base,
    files: &mut F,
    out: &mut K,
    line: &ProgressLine<'_>,
    block: &mut [u8],
) -> Result<(), End>
    requires sound { IsSound base.now }
    requires within { AreWithin (F.seen files.old).known (extents_of base.now) }
    requires end { base.now.end ≤ (F.seen files.old).known }
    requires room { length block.old ≡ 131072 }
{
    match choose(rt.alloc(), out, base, &asked.query) {
        Ok(games) => make_pages(rt, asked, base, &games, files, out, line, block),
        Err(error) => Err(error),
    }
}

// Chooses the games that count, and says how many they are if a query chose them.
#[tactic(auto, using(crate::proofs::AskedLaws::one_each))]
fn choose<K: Sink>(
    alloc: Global,
    out: &mut K,
    base: &Base,
    query: &Option<HeadQuery>,
) -> Result<Filter, End>
    ensures each { IfOk result (λ games. length games ≡ length base.now.entries) }
    ensures games { IfOk result (λ games. games ≡ games_asked query.now base.now) }
{
    let games = games_asked(alloc, base, query)?;
    if query.is_some() {
        say_chosen(alloc, out, &games)?;
    }
    Ok(games)
}

// Says how many games count.
fn say_chosen<K: Sink>(alloc: Global, out: &mut K, games: &Filter) -> Result<(), End> {
    let (count, of) = (games.count(), games.len());
    say(out, format!(in alloc; "filter {count} of {of}\n")?)
}

// Says how many games the base has, and how many entries were mended.
fn say_opened<K: Sink>(alloc: Global, out: &mut K, games: u32, mended: u32) -> Result<(), End> {
    say(
        out,
        format!(in alloc; "base {games} games {mended} mended\n")?,
    )
}

// Begins the folder, puts the book into it, and says that it is whole.
fn make_pages<F: Files, K: Sink>(
    rt: &HostRuntime,
    asked: &Asked<'_>,
    base: &Base,
    games: &Filter,
    files: &mut F,
    out: &mut K,
    line: &ProgressLine<'_>,
    block: &mut [u8],
) -> Result<(), End>
    requires games { length games.now ≡ length base.now.entries }
    requires sound { IsSound base.now }
    requires within { AreWithin (F.seen files.old).known (extents_of base.now) }
    requires end { base.now.end ≤ (F.seen files.old).known }
    requires room { length block.old ≡ 131072 }
{
    let alloc = rt.alloc();
    asked.folder.begin()?;
    let mut shelf = Filling::new(&asked.folder, line);
    let (pages, least) = make_book(alloc, asked, base, games, files, &mut shelf, block)?;
    asked.folder.finish()?;
    say_made(alloc, out, pages, least)
}

// Says how many pages there are, and how many games reach each at least.
fn say_made<K: Sink>(alloc: Global, out: &mut K, pages: usize, least: u64) -> Result<(), End> {
    say(out, format!(in alloc; "pages {pages} least {least}\n")?)
}

// Opens the base that was chosen.
fn open<F: Files>(alloc: Global, files: &mut F, block: &mut [u8]) -> Result<(Base, u32), End>
    requires room { length block.old ≡ 131072 }
    ensures sound { IfOk result (λ opened. IsSound opened.0) }
    ensures within { IfOk result (λ opened. AreWithin (F.seen files.new).known (extents_of opened.0)) }
    ensures end { IfOk result (λ opened. opened.0.end ≤ (F.seen files.new).known) }
    ensures room { length block.new ≡ 131072 }
{
    match Base::open_base(alloc, files, false, false, block) {
        Ok(opened) => Ok(opened),
        Err(error) => Err(End::from(error)),
    }
}

// Writes a line.
fn say<K: Sink>(out: &mut K, line: String) -> Result<(), End> {
    match write_all(out, line.as_bytes()) {
        Ok(()) => Ok(()),
        Err(error) => Err(End::from(error.of_output())),
    }
}

// Says on standard error how the run ended, and gives the exit code.
fn told(rt: &HostRuntime, end: &End) -> ExitCode {
    let line = message(end);
    let _ = match end {
        End::BadBase(fault) => eprintln!(rt; "{line}{fault}"),
        End::Changed(game) => eprintln!(rt; "{line}{game}"),
        End::BadName(number) => eprintln!(rt; "{line}{number}"),
        _ => eprintln!(rt; "{line}"),
    };
    ExitCode::from(end.exit_code())
}
