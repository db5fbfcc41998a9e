//! The lines of the input, each answered before the next one is read.
ghost use Rattle.std.specs.Prelude.{◌≡◌, ◌≤◌, ◌∷◌, [], ◌++◌, ℕ, List, length, Option, IfErr, IsErrOf, OnErr, OnOk};
ghost use Rattle.base_files.specs.Causes.{HasCause};
ghost use Rattle.base_files.specs.Told.{Grew, Tells, adds};
ghost use Rattle.scid_moves.specs.Answers.{answer};
ghost use Rattle.scid_moves.specs.Ends.{Why};
ghost use Rattle.scid_moves.specs.Lines.{all_lines, answers, whole_lines};
ghost use Rattle.scid_moves.specs.Serving.{Answered, Broken};
ghost use Rattle.scid_moves.specs.Standing.{Cut, Stands, Stopped, most_kept};

use crate::answer::{LONGEST_LINE, answer};
use crate::end::End;
use base_files::{DeviceError, Failed, Sink, Source, write_all};
use std::alloc::Global;

/// How many bytes are asked of the input at once.
const PIECE: usize = 4096;

/// How many bytes of a line are kept: one more than it may have, so that what is kept is too long if the line is.
const MOST_KEPT: usize = LONGEST_LINE + 1;

/// Answers each line of the input before the next one is read.
pub fn serve<S: Source, K: Sink>(alloc: Global, input: &mut S, out: &mut K) -> Result<(), End>
    ensures done { OnOk result (Answered all_lines (S.left input.old) (S.left input.new) (K.taken out.old) (K.taken out.new)) }
    ensures end { OnOk result (Tells (S.left input.new) []) }
    ensures unread { IsErrOf result End.ReadFault → Answered whole_lines (S.left input.old) (S.left input.new) (K.taken out.old) (K.taken out.new) }
    ensures broken { OnErr result (Broken (S.left input.old) (S.left input.new) (K.taken out.old) (K.taken out.new)) }
    ensures reads { S.faults input.old ≤ S.faults input.new }
    ensures writes { K.faults out.old ≤ K.faults out.new }
    ensures cause { IfErr result (λ end. Why end (S.faults input.old) (S.faults input.new) (K.faults out.old) (K.faults out.new)) }
{
    let mut line = Vec::new(alloc);
    let mut piece = [0; PIECE];
    'pieces: loop {
        let count = match input.read(&mut piece) {
            Ok(count) => count,
            Err(Failed) => return Err(End::ReadFault),
        };
        if count == 0 {
            return match write_last(alloc, line.as_slice(), out) {
                Ok(()) => Ok(()),
                Err(error) => Err(End::of_output(error)),
            };
        }
        if let Err(error) = take_piece(alloc, &piece[..count], &mut line, out) {
            return Err(End::of_output(error));
        }
    }
}

// Takes the bytes of a piece, and answers each line that ends in it.
fn take_piece<K: Sink>(
    alloc: Global,
    piece: &[u8],
    line: &mut Vec<u8>,
    out: &mut K,
) -> Result<(), DeviceError>
    ensures stands { OnOk result ((front : List ℕ) (taken : Option (List ℕ)) → Stands front line.old.items taken (K.taken out.old) → Stands (front ++ piece.now) line.new.items taken (K.taken out.new)) }
    ensures stopped { OnErr result ((front : List ℕ) (taken : Option (List ℕ)) → Stands front line.old.items taken (K.taken out.old) → Stopped front piece.now taken (K.taken out.new)) }
    ensures writes { K.faults out.old ≤ K.faults out.new }
    ensures cause { IfErr result (λ e. HasCause e (K.faults out.old) (K.faults out.new)) }
{
    for byte in piece {
        take_byte(alloc, *byte, line, out)?;
    }
    Ok(())
}

// Takes a byte, and answers the line if it is a line feed.
#[tactic(auto, using(crate::proofs::StandingLaws::stands_fed, crate::proofs::StandingLaws::stands_kept, crate::proofs::StandingLaws::stands_full, crate::proofs::StandingLaws::cut_byte, crate::proofs::StandingLaws::cut_fed, crate::proofs::StandingLaws::cut_stands))]
fn take_byte<K: Sink>(
    alloc: Global,
    byte: u8,
    line: &mut Vec<u8>,
    out: &mut K,
) -> Result<(), DeviceError>
    ensures stands { OnOk result ((front : List ℕ) (taken : Option (List ℕ)) → Stands front line.old.items taken (K.taken out.old) → Stands (front ++ byte ∷ []) line.new.items taken (K.taken out.new)) }
    ensures cut { OnErr result ((front : List ℕ) (taken : Option (List ℕ)) → Stands front line.old.items taken (K.taken out.old) → Cut (front ++ byte ∷ []) taken (K.taken out.new)) }
    ensures writes { K.faults out.old ≤ K.faults out.new }
    ensures cause { IfErr result (λ e. HasCause e (K.faults out.old) (K.faults out.new)) }
{
    if byte == b'\n' {
        write_answer(alloc, line.as_slice(), out)?;
        line.clear();
        return Ok(());
    }
    if line.len() < MOST_KEPT {
        line.push(byte)?;
    }
    Ok(())
}

// Writes the answer to the line that the end of the input ends, unless it is empty.
#[tactic(auto, using(crate::proofs::StandingLaws::last_empty, crate::proofs::StandingLaws::last_written, crate::proofs::StandingLaws::last_cut))]
fn write_last<K: Sink>(alloc: Global, line: &[u8], out: &mut K) -> Result<(), DeviceError>
    ensures written { OnOk result ((front : List ℕ) (taken : Option (List ℕ)) → Stands front line.now taken (K.taken out.old) → K.taken out.new ≡ adds taken (answers (all_lines front))) }
    ensures cut { OnErr result ((front : List ℕ) (taken : Option (List ℕ)) → Stands front line.now taken (K.taken out.old) → Cut front taken (K.taken out.new)) }
    ensures writes { K.faults out.old ≤ K.faults out.new }
    ensures cause { IfErr result (λ e. HasCause e (K.faults out.old) (K.faults out.new)) }
{
    if line.is_empty() {
        return Ok(());
    }
    write_answer(alloc, line, out)
}

// Writes the answer to a line.
fn write_answer<K: Sink>(alloc: Global, line: &[u8], out: &mut K) -> Result<(), DeviceError>
    ensures written { OnOk result (K.taken out.new ≡ adds (K.taken out.old) (answer line.now)) }
    ensures kept { Grew (K.taken out.old) (K.taken out.new) }
    ensures no_more { Grew (K.taken out.new) (adds (K.taken out.old) (answer line.now)) }
    ensures writes { K.faults out.old ≤ K.faults out.new }
    ensures cause { IfErr result (λ e. HasCause e (K.faults out.old) (K.faults out.new)) }
{
    let text = answer(alloc, line)?;
    write_all(out, text.as_slice())
}
