//! Reading the start of a game from its record.
ghost use Rattle.std.specs.Prelude.{◌≡◌, ◌+◌, ◌%◌, ◌≤◌, ℕ, ◌∷◌, length, drop, IfOk, IfErr};
ghost use Rattle.game_codec.specs.Breach.{Tells};
ghost use Rattle.game_codec.specs.Start.{BeginsStart, BreaksStart, IsOwnStart, standard_start};

use super::breach::Breach;
use super::fault::RecordWhat;
use super::texts::zero_at;
use chess_text::read_fen;
use move_codec::Numbered;

/// Reads the flags behind the tags, and the FEN if they say an own start. It gives how many bytes of the record tell the start.
/// The standard start is made where it stays, and an own one takes its place.
pub(crate) fn read_start(bytes: &[u8], start: &mut Numbered) -> Result<usize, Breach>
    requires standard { start.old ≡ standard_start }
    ensures ok { IfOk result (λ used. BeginsStart bytes.now start.new (drop used bytes.now)) }
    ensures used { IfOk result (λ used. used ≤ length bytes.now) }
    ensures err { IfErr result (Tells (BreaksStart bytes.now)) }
{
    match bytes {
        [] => Err(Breach {
            left: 0,
            what: RecordWhat::Short,
        }),
        [flags, text @ ..] => {
            if *flags % 2 == 0 {
                Ok(1)
            } else {
                read_own_start(text, start)
            }
        }
    }
}

// Reads an own start, behind the flags. The bytes used count the flags too.
#[inline(never)]
fn read_own_start(bytes: &[u8], start: &mut Numbered) -> Result<usize, Breach>
    ensures ok { IfOk result (λ used. (flags : ℕ) → flags % 2 ≡ 1 → IsOwnStart (flags ∷ bytes.now) start.new (drop used (flags ∷ bytes.now))) }
    ensures used { IfOk result (λ used. used ≤ length bytes.now + 1) }
    ensures err { IfErr result (λ breach. (flags : ℕ) → flags % 2 ≡ 1 → Tells (BreaksStart (flags ∷ bytes.now)) breach) }
{
    let Some(len) = zero_at(bytes) else {
        return Err(Breach {
            left: 0,
            what: RecordWhat::Short,
        });
    };
    let (text, _) = bytes.split_at(len);
    match read_fen(text) {
        Ok(position) => {
            *start = Numbered::from_start(position);
            Ok(len + 2)
        }
        Err(_) => Err(Breach {
            left: bytes.len(),
            what: RecordWhat::Fen,
        }),
    }
}
