//! A sink that puts a tag before each line.
ghost use Rattle.std.specs.Prelude.{◌≡◌};
ghost use Rattle.std.proofs.Props.{props};
ghost use Rattle.command_runs.specs.Rendered.{Opening, Rendered, opening, said};
ghost use Rattle.command_runs.specs.Waiting.{none_waits};

use crate::page::TagPage;
use crate::way::Way;
use base_files::{DeviceError, Sink};
use std::marker::{Brand, PhantomData};

/// Where a tagged text begins, which the type of its sink knows by a ghost member.
pub trait Opens {
    ghost opening: { Opening };
}

impl Opens for Brand {
    ghost use Rattle.std.specs.Prelude.{[], None};

    ghost opening = { record { tag = []; told = None; faults = 0; out_name = 0; page_name = 0 } };
}

/// A sink of one text over another sink: each line of the text goes out behind the tag. What the page holds at the end is still to be
/// written, by `TagPage::flush`. A write that fails is a fault of it.
#[derive(Drop)]
pub struct TaggedSink<'o, 'p, 't, K: Sink, O: Opens> {
    out: &'o mut K,
    page: &'p mut TagPage,
    tag: &'t [u8],
    of: PhantomData<O>,
    ghost tagged: { tag.now ≡ O.opening.tag },
    ghost out_name: { out.ghost_name ≡ O.opening.out_name },
    ghost page_name: { page.ghost_name ≡ O.opening.page_name },
    ghost rendered: { Rendered O.opening (K.taken out.now) (K.faults out.now) page.now } by { Prim.hlevel props },
}

impl<'o, 'p, 't, K: Sink, O: Opens> TaggedSink<'o, 'p, 't, K, O> {
    /// The sink of a text that begins here. What the page held is forgotten.
    pub fn open(way: Way<'o, 'p, 't, K>) -> TaggedSink<'o, 'p, 't, K, O>
        requires begins { O.opening ≡ opening way.tag.now (K.taken way.out.now) (K.faults way.out.now) way.out.ghost_name way.page.ghost_name }
        ensures told { K.taken result.out.now ≡ O.opening.told }
        ensures nothing { result.page.now ≡ none_waits }
    {
        way.page.clear();
        TaggedSink {
            out: way.out,
            page: way.page,
            tag: way.tag,
            of: PhantomData,
        }
    }

    /// The way on which its text went: to the sink and over the page with which it began.
    pub fn close(self) -> Way<'o, 'p, 't, K>
        ensures out_name { result.out.ghost_name ≡ O.opening.out_name }
        ensures page_name { result.page.ghost_name ≡ O.opening.page_name }
        ensures out { result.out.now ≡ self.entry.out.now }
        ensures page { result.page.now ≡ self.entry.page.now }
        ensures rendered { Rendered O.opening (K.taken result.out.now) (K.faults result.out.now) result.page.now }
    {
        Way {
            out: self.out,
            page: self.page,
            tag: self.tag,
        }
    }
}

impl<'o, 'p, 't, K: Sink, O: Opens> Sink for TaggedSink<'o, 'p, 't, K, O> {
    ghost taken = { λ sink. said O.opening (K.taken sink.out.now) sink.page.now };

    ghost faults = { λ sink. sink.page.now.faults };

    fn write(&mut self, piece: &[u8]) -> Result<usize, DeviceError> {
        self.page.write(self.out, self.tag, piece)
    }
}
