//! The commands that show what is there. Each answers the line that it writes.
ghost use Rattle.std.specs.Prelude.{◌≡◌, ◌++◌, IfOk, Ok, OnOk, count_by, string_bytes};
ghost use Rattle.shell_state.specs.Stands.{Fits, Quiet, depth_of};
ghost use Rattle.text_commands.specs.Showing.{info_work, quit_work};
ghost use Rattle.text_commands.specs.Telling.{info_line, numbers_line, counts_line, unsaved_words, index_words};

use name_base::NameKind;
use pos_index::PosIndex;
use shell_state::Machine;
use sig_index::Games;
use std::alloc::{AllocError, Global};

/// The command `quit`: gives its line, which tells of changes that are not saved.
pub fn quit(alloc: Global, machine: &Machine) -> Result<Vec<u8>, AllocError>
    requires fits { Fits machine.now }
    ensures quiet { IfOk result (λ line. Quiet machine.now quit_work machine.now line.items) }
{
    if machine.base.unsaved() {
        Vec::from_slice(alloc, b"unsaved\n")
    } else {
        Ok(Vec::new(alloc))
    }
}

/// The command `info`: gives the line that tells what is in the base.
pub fn info(alloc: Global, machine: &Machine) -> Result<Vec<u8>, AllocError>
    requires fits { Fits machine.now }
    ensures quiet { IfOk result (λ line. Quiet machine.now info_work machine.now line.items) }
{
    let names = machine.base.names();
    info_line(
        alloc,
        &Numbers {
            games: machine.base.header().games,
            deleted: deleted_in(&machine.base),
            players: names.count(NameKind::Player),
            events: names.count(NameKind::Event),
            sites: names.count(NameKind::Site),
            rounds: names.count(NameKind::Round),
            unsaved: machine.base.unsaved(),
            index: depth_of(&machine.index),
        },
    )
}

// What `info` tells.
#[derive(Clone, Copy, Debug)]
struct Numbers {
    games: u32,
    deleted: u32,
    players: u32,
    events: u32,
    sites: u32,
    rounds: u32,
    unsaved: bool,
    index: Option<u32>,
}

// The line of `info`.
fn info_line(alloc: Global, n: &Numbers) -> Result<Vec<u8>, AllocError>
    ensures { IfOk result (λ line. line.items ≡ info_line n.now.games n.now.deleted n.now.players n.now.events n.now.sites n.now.rounds n.now.unsaved n.now.index) }
{
    let mut line = numbers_line(alloc, n)?;
    line.push_str(unsaved_words(n.unsaved))?;
    push_index(&mut line, n.index)?;
    Ok(line.into_bytes())
}

// Adds the depth of the position index, or that there is none.
fn push_index(line: &mut String, index: Option<u32>) -> Result<(), AllocError>
    ensures { OnOk result (string_bytes line.new ≡ string_bytes line.old ++ index_words index) }
{
    match index {
        Some(depth) => write!(line, " index {depth}\n")?,
        None => line.push_str(" index off\n")?,
    }
    Ok(())
}

// The depth of a position index, if there is one.
fn depth_of(index: &Option<PosIndex>) -> Option<u32>
    ensures depth { result ≡ depth_of index.now }
{
    match index {
        Some(index) => Some(u32::from(index.depth())),
        None => None,
    }
}

// The numbers of `info`.
fn numbers_line(alloc: Global, n: &Numbers) -> Result<String, AllocError>
    ensures { IfOk result (λ line. string_bytes line ≡ numbers_line n.now.games n.now.deleted n.now.players n.now.events n.now.sites n.now.rounds) }
{
    let mut line = counts_line(alloc, n.games, n.deleted, n.players)?;
    let (events, sites, rounds) = (n.events, n.sites, n.rounds);
    write!(line, " events {events} sites {sites} rounds {rounds}")?;
    Ok(line)
}

// The first of the numbers.
fn counts_line(alloc: Global, games: u32, deleted: u32, players: u32) -> Result<String, AllocError>
    ensures { IfOk result (λ line. string_bytes line ≡ counts_line games deleted players) }
{
    let line = format!(in alloc; "games {games} deleted {deleted} players {players}")?;
    Ok(line)
}

// Whether there are changes that are not saved.
fn unsaved_words(unsaved: bool) -> &'static str
    ensures { result.now ≡ unsaved_words unsaved }
{
    if unsaved {
        " unsaved yes"
    } else {
        " unsaved no"
    }
}

// How many games are marked as deleted.
fn deleted_in<G: Games>(games: &G) -> u32
    ensures { result ≡ count_by (λ head. head.deleted) (G.heads games.now) }
{
    let mut count = 0;
    for i in 0..games.len() {
        count += u32::from(games.head(i).deleted);
    }
    count
}
