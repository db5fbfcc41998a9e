//! The body of a command, as a source.
ghost use Rattle.std.specs.Prelude.{◌≡◌, ◌∷◌, [], OnOk, IfOk};
ghost use Rattle.std.proofs.Props.{props};
ghost use Rattle.script_lines.specs.Standing.{Start, Standing, left_of, start_at, still_left};

use crate::place::Place;
use base_files::{Failed, Source};
use std::marker::{Brand, PhantomData};

/// The beginning of a body, which its type knows by a ghost member.
pub trait Begins {
    ghost start: { Start };
}

impl Begins for Brand {
    ghost use Rattle.std.specs.Prelude.{[], None, false};

    ghost start = { record { tagged = false; word = []; ahead = None; used = 0; sum = 0; budget = 0; faults = 0 } };
}

/// The body of a command: the bytes of the lines behind its own up to one that is the word, or to the end of the input. A fault of the
/// input and the greatest length of a script are faults of it, behind which it gives no more.
#[derive(Drop)]
pub struct Body<'a, S: Source, B: Begins> {
    input: &'a mut S,
    place: &'a mut Place,
    of: PhantomData<B>,
    ghost stands: { Standing B.start place.now (S.left input.now) (S.budget input.now) (S.faults input.now) } by { Prim.hlevel props },
}

impl<'a, S: Source, B: Begins> Body<'a, S, B> {
    /// The body at whose beginning a place stands.
    pub fn new(input: &'a mut S, place: &'a mut Place) -> Body<'a, S, B>
        requires begins { Standing B.start place.now (S.left input.now) (S.budget input.now) (S.faults input.now) }
        ensures input { result.input.ghost_name ≡ input.entry.ghost_name }
        ensures place { result.place.ghost_name ≡ place.entry.ghost_name }
        ensures source { result.input.now ≡ input.old }
        ensures stands { result.place.now ≡ place.old }
    {
        Body {
            input,
            place,
            of: PhantomData,
        }
    }
}

/// The body of a command that has none.
#[derive(Drop)]
pub struct NoBody;

impl Source for NoBody {
    ghost use Rattle.std.specs.Prelude.{[], Some};

    ghost left = { λ _. Some [] };

    ghost budget = { λ _. 0 };

    ghost faults = { λ _. 0 };

    ghost origin = { λ _. [] };

    fn read(&mut self, _into: &mut [u8]) -> Result<usize, Failed> {
        Ok(0)
    }
}

impl<'a, S: Source, B: Begins> Source for Body<'a, S, B> {
    ghost left = { λ body. left_of body.place.now (S.left body.input.now) };

    ghost budget = { λ body. still_left body.place.now (S.budget body.input.now) };

    ghost faults = { λ body. body.place.now.refused };

    ghost origin = { λ body. body.input.ghost_name ∷ body.place.ghost_name ∷ [] };

    fn read(&mut self, into: &mut [u8]) -> Result<usize, Failed> {
        self.place.read(self.input, into)
    }
}
