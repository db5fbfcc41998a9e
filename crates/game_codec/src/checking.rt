//! Whether bytes are a record.
ghost use Rattle.std.specs.Prelude.{◌≡◌, ◌+◌, ◌<◌, ◌≤◌, ◌^◌, [], length, drop, IfOk, IfErr, OnOk, MatchOption};
ghost use Rattle.game_tree.specs.Movetext.{Movetext};
ghost use Rattle.game_codec.specs.Breach.{Tells};
ghost use Rattle.game_codec.specs.Fault.{IsRecordFault, Breaks};
ghost use Rattle.game_codec.specs.Moves.{SpellsMoves, BreaksMoves, Upto};
ghost use Rattle.game_codec.specs.Record.{IsSomeRecord};
ghost use Rattle.game_codec.specs.Scanning.{tokens_then};
ghost use Rattle.game_codec.specs.Tallying.{size_of, tallied};
ghost use Rattle.game_codec.specs.Texts.{BreaksTexts};
ghost use Rattle.game_codec.specs.Checking.{AreSomeTexts};

use super::breach::Breach;
use super::decoding::place_of;
use super::fault::{RecordFault, RecordWhat};
use super::place::Place;
use super::start::read_start;
use super::tags::tags_len;
use super::tally::Tally;
use super::texts::zero_at;
use super::token::Token;
use super::tokens::next_token;
use move_codec::Numbered;

/// The first fault of these bytes, or `None` if they are a record: each list of bytes is one or has a fault. It takes no
/// memory. A record has fewer than 2^32 bytes.
pub fn first_fault(bytes: &[u8]) -> Option<RecordFault>
    requires few { length bytes.now < 2 ^ 32 }
    ensures record_or_fault { MatchOption result (IsSomeRecord bytes.now) (IsRecordFault bytes.now) }
{
    match check(bytes) {
        Ok(()) => None,
        Err(breach) => Some(RecordFault {
            place: place_of(bytes.len(), breach.left, breach.what),
            what: breach.what,
        }),
    }
}

// Whether bytes are a record, part by part.
fn check(bytes: &[u8]) -> Result<(), Breach>
    ensures ok { OnOk result (IsSomeRecord bytes.now) }
    ensures err { IfErr result (Tells (Breaks bytes.now)) }
{
    let (_, behind_tags) = bytes.split_at(tags_len(bytes)?);
    let mut start = Numbered::standard();
    let read = read_start(behind_tags, &mut start)?;
    let (_, behind_start) = behind_tags.split_at(read);
    let mut tally = Tally::new();
    let used = check_line(Place::beginning(0, start), behind_start, &mut tally)?;
    let (_, behind_moves) = behind_start.split_at(used);
    let _some = check_texts(tally.comments, behind_moves)?;
    Ok(())
}

/// Goes along a line from its beginning to its end, and into its variations by a call of itself. It gives how many bytes the line takes
/// with its end, and adds what it has with its variations.
pub(crate) fn check_line(place: Place, bytes: &[u8], tally: &mut Tally) -> Result<usize, Breach>
    requires room { size_of tally.old + length bytes.now ≤ usize.MAX }
    ensures spelled { IfOk result (λ used. (s : Movetext) × (SpellsMoves place s bytes.now (drop used bytes.now) × (tally.new ≡ tallied tally.old (tokens_then s [])))) }
    ensures used { IfOk result (λ used. used ≤ length bytes.now) }
    ensures few { IfOk result (λ used. size_of tally.new ≤ size_of tally.old + used) }
    ensures err { IfErr result (Tells (λ rest what. (u : Upto) × BreaksMoves place u bytes.now rest what)) }
{
    let mut here = place;
    let mut rest = bytes;
    'items: loop {
        let next = match next_token(&mut here, rest) {
            Ok(next) => next,
            Err(what) => {
                return Err(Breach {
                    left: rest.len(),
                    what,
                });
            }
        };
        rest = rest.split_at(next.used).1;
        tally.add(&next.token);
        match next.token {
            Token::Open => {
                let used = check_line(here.variation(), rest, tally)?;
                rest = rest.split_at(used).1;
            }
            Token::Close => return Ok(bytes.len() - rest.len()),
            Token::End => return Ok(bytes.len() - rest.len()),
            Token::Play(_) => {}
            Token::Nag(_) => {}
            Token::Comment => {}
        }
    }
}

/// How many of so many texts are not empty, if the bytes are so many.
pub(crate) fn check_texts(due: usize, bytes: &[u8]) -> Result<usize, Breach>
    ensures ok { IfOk result (AreSomeTexts due bytes.now) }
    ensures err { IfErr result (Tells (BreaksTexts due bytes.now)) }
{
    let mut rest = bytes;
    let mut read = 0;
    let mut some = 0;
    while read < due {
        let Some(len) = zero_at(rest) else {
            return Err(Breach {
                left: rest.len(),
                what: RecordWhat::Short,
            });
        };
        rest = rest.split_at(len + 1).1;
        read += 1;
        // An empty text is no comment.
        some += len.min(1);
    }
    if rest.is_empty() {
        Ok(some)
    } else {
        Err(Breach {
            left: rest.len(),
            what: RecordWhat::Extra,
        })
    }
}
