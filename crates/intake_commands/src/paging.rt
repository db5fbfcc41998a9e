//! Reading items while the lines of those before them wait on a page.
ghost use Rattle.std.specs.Prelude.{◌≡◌, ◌≤◌, ◌<◌, ◌+◌, ◌∷◌, [], length, take, None, IfOk, IfErr, IfSome, OnOk, OnErr};
ghost use Rattle.std.proofs.Props.{props};
ghost use Rattle.base_files.specs.Counters.{Rose};
ghost use Rattle.base_files.specs.Told.{adds, before, Tells};
ghost use Rattle.command_runs.specs.Counts.{Causes, counts};
ghost use Rattle.command_runs.specs.Endings.{NoneLost};
ghost use Rattle.pgn_read.specs.Fit.{IsFit};
ghost use Rattle.pgn_read.specs.Readers.{told, Follows};
ghost use Rattle.intake_commands.specs.Paging.{Start, start_at, Paging};
ghost use Rattle.shell_state.specs.Ends.{IsBodyFault};
ghost use Rattle.shell_state.specs.Stands.{WhyHalt};

use crate::importing::unread;
use base_files::{Failed, FaultCount, Sink, Source};
use pgn_read::{Item, Reader};
use shell_state::{Halt, write_page};
use std::alloc::Global;
use std::marker::{Brand, PhantomData};

/// Where the reading of an item begins, which the type of its source knows by a ghost member.
trait Begins {
    ghost start: { Start };
}

impl Begins for Brand {
    ghost use Rattle.std.specs.Prelude.{[], None};

    ghost start = { record { taken = None; page = []; origin = []; input = 0; output = 0 } };
}

/// A body beside a page: what waits is written before the body is asked for more, so that it stands there where the program waits for its
/// input. A write that fails is a fault of it.
#[derive(Drop)]
struct Paged<'b, 'p, 'o, B: Source, K: Sink, S: Begins> {
    body: &'b mut B,
    page: &'p mut Vec<u8>,
    out: &'o mut K,
    // Why what waits was not written.
    stop: Option<Halt>,
    // How many reads failed.
    refused: FaultCount,
    of: PhantomData<S>,
    ghost stands: { Paging S.start (K.taken out.now) page.now.items (B.origin body.now) (B.faults body.now) (K.faults out.now) refused stop } by { Prim.hlevel props },
}

impl<'b, 'p, 'o, B: Source, K: Sink, S: Begins> Paged<'b, 'p, 'o, B, K, S> {
    // The body at whose place the reading of an item begins.
    fn new(body: &'b mut B, page: &'p mut Vec<u8>, out: &'o mut K) -> Paged<'b, 'p, 'o, B, K, S>
        requires begins { S.start ≡ start_at (K.taken out.old) page.old.items (B.origin body.old) (B.faults body.old) (K.faults out.old) }
        ensures body_name { result.body.ghost_name ≡ body.entry.ghost_name }
        ensures page_name { result.page.ghost_name ≡ page.entry.ghost_name }
        ensures out_name { result.out.ghost_name ≡ out.entry.ghost_name }
        ensures body { result.body.now ≡ body.old }
        ensures free { result.stop ≡ None }
        ensures fresh { result.refused ≡ 0 }
    {
        Paged {
            body,
            page,
            out,
            stop: None,
            refused: FaultCount::new(),
            of: PhantomData,
        }
    }
}

impl<'b, 'p, 'o, B: Source, K: Sink, S: Begins> Source for Paged<'b, 'p, 'o, B, K, S> {
    ghost left = { λ paged. B.left paged.body.now };

    ghost budget = { λ paged. B.budget paged.body.now };

    ghost faults = { λ paged. paged.refused };

    ghost origin = { λ paged. paged.body.ghost_name ∷ paged.page.ghost_name ∷ paged.out.ghost_name ∷ [] };

    fn read(&mut self, into: &mut [u8]) -> Result<usize, Failed> {
        read_behind(
            self.body,
            self.page,
            self.out,
            &mut self.stop,
            &mut self.refused,
            into,
        )
    }
}

// Writes what waits, and then reads the next bytes of the body.
fn read_behind<B: Source, K: Sink>(
    body: &mut B,
    page: &mut Vec<u8>,
    out: &mut K,
    stop: &mut Option<Halt>,
    refused: &mut FaultCount,
    into: &mut [u8],
) -> Result<usize, Failed>
    requires some { 0 < length into.old }
    ensures fits { IfOk result (λ n. n ≤ length into.old) }
    ensures given { IfOk result (λ n. B.left body.old ≡ before (take n into.new) (B.left body.new)) }
    ensures end { IfOk result (λ n. n ≡ 0 → Tells (B.left body.new) []) }
    ensures spent { IfOk result (λ n. B.budget body.new + n ≡ B.budget body.old) }
    ensures none_lost { OnErr result (B.left body.new ≡ B.left body.old) }
    ensures none_spent { OnErr result (B.budget body.new ≡ B.budget body.old) }
    ensures counts { refused.old ≤ refused.new }
    ensures cause { OnErr result (Rose refused.old refused.new) }
    ensures stands { (s : Start) → Paging s (K.taken out.old) page.old.items (B.origin body.old) (B.faults body.old) (K.faults out.old) refused.old stop.old → Paging s (K.taken out.new) page.new.items (B.origin body.new) (B.faults body.new) (K.faults out.new) refused.new stop.new }
{
    if let Err(halt) = write_page(page, out) {
        *stop = Some(halt);
        return Err(refused.fault());
    }
    match body.read(into) {
        Ok(n) => Ok(n),
        Err(Failed) => Err(refused.fault()),
    }
}

/// Reads the next item, or finds that there is none. What waits on the page is written before the body is asked for more.
pub(crate) fn next_behind<B: Source, K: Sink>(
    alloc: Global,
    reader: &mut Reader,
    body: &mut B,
    page: &mut Vec<u8>,
    out: &mut K,
) -> Result<Option<Item>, Halt>
    requires free { reader.old.stuck ≡ None }
    ensures item { IfOk result (λ item. Follows (told reader.old (B.left body.old)) item (told reader.new (B.left body.new))) }
    ensures good { IfOk result (λ item. IfSome item IsFit) }
    ensures free { OnOk result (reader.new.stuck ≡ None) }
    ensures kept { adds (K.taken out.new) page.new.items ≡ adds (K.taken out.old) page.old.items }
    ensures same { B.origin body.new ≡ B.origin body.old }
    ensures fault { IfErr result IsBodyFault }
    ensures none_lost { NoneLost (K.taken out.old) (K.taken out.new) }
    ensures causes { Causes WhyHalt result (counts 0 (B.faults body.old) (K.faults out.old)) (counts 0 (B.faults body.new) (K.faults out.new)) }
{
    next_in::<Brand, B, K>(alloc, reader, body, page, out)
}

// The same from a place on that the type of the source knows.
fn next_in<S: Begins, B: Source, K: Sink>(
    alloc: Global,
    reader: &mut Reader,
    body: &mut B,
    page: &mut Vec<u8>,
    out: &mut K,
) -> Result<Option<Item>, Halt>
    requires free { reader.old.stuck ≡ None }
    requires begins { S.start ≡ start_at (K.taken out.old) page.old.items (B.origin body.old) (B.faults body.old) (K.faults out.old) }
    ensures item { IfOk result (λ item. Follows (told reader.old (B.left body.old)) item (told reader.new (B.left body.new))) }
    ensures good { IfOk result (λ item. IfSome item IsFit) }
    ensures free { OnOk result (reader.new.stuck ≡ None) }
    ensures kept { adds (K.taken out.new) page.new.items ≡ adds (K.taken out.old) page.old.items }
    ensures same { B.origin body.new ≡ B.origin body.old }
    ensures fault { IfErr result IsBodyFault }
    ensures none_lost { NoneLost (K.taken out.old) (K.taken out.new) }
    ensures causes { Causes WhyHalt result (counts 0 (B.faults body.old) (K.faults out.old)) (counts 0 (B.faults body.new) (K.faults out.new)) }
{
    let mut paged: Paged<'_, '_, '_, B, K, S> = Paged::new(body, page, out);
    match reader.next(alloc, &mut paged) {
        Ok(item) => Ok(item),
        Err(error) => match paged.stop {
            Some(halt) => Err(halt),
            None => Err(unread(error)),
        },
    }
}
