//! The opening of a session: the base that the words name, and the line that tells it.
ghost use Rattle.std.specs.Prelude.{◌≡◌, ◌≤◌, ◌+◌, ◌⊎◌, [], ◌∷◌, ◌++◌, codes, length, string_bytes, IfOk, IfErr, IfSome, OnOk};
ghost use Rattle.std.specs.Fmt.{decimal};
ghost use Rattle.base_files.specs.Chosen.{choice};
ghost use Rattle.base_files.specs.Counters.{Rose};
ghost use Rattle.base_files.specs.Seen.{SameContents};
ghost use Rattle.base_files.specs.Told.{adds};
ghost use Rattle.base_core.specs.Opening.{IfTold, open_cost};
ghost use Rattle.command_runs.specs.Counts.{Causes, Why, counts};
ghost use Rattle.command_runs.specs.Endings.{Halted};
ghost use Rattle.desk_commands.specs.Standing.{DeskSound};
ghost use Rattle.script_lines.specs.Clients.{new_clients};
ghost use Rattle.shell_session.specs.Running.{Opening, OpeningRefused};
ghost use Rattle.shell_session.specs.Session.{opening_text};

use crate::words::Wanted;
use base_core::Base;
use base_files::{Files, Sink, Stop};
use command_runs::write_text;
use desk_commands::Desk;
use script_lines::Clients;
use session_status::Status;
use std::alloc::{AllocError, Global};

/// How long a record may be, and one byte more.
const BLOCK: usize = 131_072;

/// Chooses and opens the base that the words name, for the clients that they ask for, and tells how many of its entries were mended.
pub(crate) fn open<F: Files>(
    alloc: Global,
    files: &mut F,
    wanted: &Wanted,
) -> Result<(Desk, u32), Status>
    ensures opens { IfOk result (λ opened. IfTold (F.seen files.old) (λ index names games. Opening wanted.now.create wanted.now.strict wanted.now.desk index names games (F.seen files.old).fresh opened.0 (F.seen files.new) opened.1)) }
    ensures refused { IfErr result (OpeningRefused wanted.now.create wanted.now.strict (F.seen files.old)) }
    ensures sound { IfOk result (λ opened. DeskSound opened.0 (F.seen files.new)) }
    ensures fresh { IfOk result (λ opened. opened.0.clients ≡ new_clients opened.0.clients.tagged) }
    ensures chosen { OnOk result ((F.seen files.new).choices ≡ (F.seen files.old).choices ++ choice wanted.now.name.now wanted.now.create ∷ []) }
    ensures chosen_in_vain { IfErr result (λ status. ((status ≡ Status.Memory) × ((F.seen files.new).choices ≡ (F.seen files.old).choices)) ⊎ ((F.seen files.new).choices ≡ (F.seen files.old).choices ++ choice wanted.now.name.now wanted.now.create ∷ [])) }
    ensures contents { SameContents (F.seen files.old) (F.seen files.new) }
    ensures asks { IfSome (F.seen files.old).index (λ index. F.asked files.new ≤ F.asked files.old + open_cost index) }
    ensures counts { F.faults files.old ≤ F.faults files.new }
    ensures cause { IfErr result (λ status. status ≡ Status.FilesFault → Rose (F.faults files.old) (F.faults files.new)) }
{
    if let Err(error) = files.choose(wanted.name, wanted.create) {
        return Err(Status::from(error.of_files()));
    }
    let Ok(mut block) = vec![in alloc; 0; BLOCK] else {
        return Err(Status::Memory);
    };
    let opened = Base::open_base(
        alloc,
        files,
        wanted.create,
        wanted.strict,
        block.as_mut_slice(),
    );
    let (base, mended) = match opened {
        Ok(opened) => opened,
        Err(error) => return Err(Status::from(error)),
    };
    match Desk::new(alloc, base, block, Clients::new(wanted.desk)) {
        Ok(desk) => Ok((desk, mended)),
        Err(_) => Err(Status::Memory),
    }
}

/// Writes the line that tells the base: its number of games, and how many of its entries were mended.
pub(crate) fn write_opening<K: Sink>(
    alloc: Global,
    games: u32,
    mended: u32,
    out: &mut K,
) -> Result<(), Stop>
    ensures written { OnOk result (K.taken out.new ≡ adds (K.taken out.old) (opening_text games mended)) }
    ensures halted { Halted [] (opening_text games mended) (K.taken out.old) (K.taken out.new) }
    ensures causes { Causes Why result (counts 0 0 (K.faults out.old)) (counts 0 0 (K.faults out.new)) }
{
    match opening_line(alloc, games, mended) {
        Ok(line) => write_text(out, line.as_slice()),
        Err(_) => Err(Stop::Memory),
    }
}

// The line that tells the base.
#[tactic(auto, using(std::proofs::Common::append_assoc))]
fn opening_line(alloc: Global, games: u32, mended: u32) -> Result<Vec<u8>, AllocError>
    ensures line { IfOk result (λ line. line.items ≡ opening_text games mended) }
{
    let mut line = opening_words(alloc, games, mended)?;
    line.push_str(" mended\n")?;
    Ok(line.into_bytes())
}

// Its words with numbers.
fn opening_words(alloc: Global, games: u32, mended: u32) -> Result<String, AllocError>
    ensures words { IfOk result (λ line. string_bytes line ≡ codes "base " ++ decimal games ++ codes " games " ++ decimal mended) }
{
    let line = format!(in alloc; "base {games} games {mended}")?;
    Ok(line)
}
