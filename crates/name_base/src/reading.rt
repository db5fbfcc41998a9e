//! Reading a names file.
ghost use Rattle.std.specs.Prelude.{◌≡◌, None, Ok, IfOk};
ghost use Rattle.name_base.specs.NameLists.{NameLists};
ghost use Rattle.name_base.specs.NamesFile.{NameFile};
ghost use Rattle.name_base.specs.Reading.{Answers, names_at};

use crate::header::header_at;
use crate::kind_reader::read_kind;
use crate::{NameFault, NameKind, NameWhat, Names, NamesError};
use std::alloc::Global;

fn header_fault(what: NameWhat) -> NamesError
    ensures { result ≡ NamesError.Bad (record { kind = None; index = 0; what = what }) }
{
    NamesError::Bad(NameFault {
        kind: None,
        index: 0,
        what,
    })
}

#[tactic(auto, unfolding(crate::specs::Reading::names_at))]
fn read_file(alloc: Global, bytes: &[u8]) -> Result<Names, NamesError>
    ensures { Answers (λ names. names) result (names_at bytes.now) }
{
    let (header, rest) = match header_at(bytes) {
        Ok(found) => found,
        Err(what) => return Err(header_fault(what)),
    };
    let (players, rest) = read_kind(alloc, NameKind::Player, header.player_shape(), rest)?;
    let (events, rest) = read_kind(alloc, NameKind::Event, header.event_shape(), rest)?;
    let (sites, rest) = read_kind(alloc, NameKind::Site, header.site_shape(), rest)?;
    let (rounds, _) = read_kind(alloc, NameKind::Round, header.round_shape(), rest)?;
    Ok(Names::from_sets(players, events, sites, rounds))
}

/// The names of a names file.
///
/// The time stamp, the frequencies, the order of the names and bytes after the last one do not count.
///
/// # Errors
///
/// `Bad` with the first fault in the order of the bytes, and `Memory`.
pub fn read_names(alloc: Global, bytes: &[u8]) -> Result<Names, NamesError>
    // What is read is spelled so.
    ensures found { IfOk result (λ names. NameFile bytes.now names) }
    // What is spelled so is read, unless memory runs out.
    ensures only { (lists : NameLists) → NameFile bytes.now lists → Answers (λ names. names) result (Ok lists) }
    // Which fault it is.
    ensures exact { Answers (λ names. names) result (names_at bytes.now) }
{
    read_file(alloc, bytes)
}
