//! How the games of a base are numbered anew if some of them go.
ghost use Rattle.std.specs.Prelude.{◌≡◌, length, take};
ghost use Rattle.game_filter.specs.Renumbering.{renumbered};

use std::alloc::{AllocError, Global};
use std::marker::Model;

/// The new number of each game that stays, and none for each game that goes.
///
/// The games that stay keep their order, so their new numbers are 0, 1 and so on.
#[derive(Debug, Drop)]
pub struct Renumbering {
    to: Vec<Option<u32>>,
    kept: u32,
}

impl Model for Renumbering {
    ghost use Rattle.std.specs.Prelude.{◌^◌, ◌<◌, ◌≤◌, vec_len};
    ghost use Rattle.game_filter.specs.Renumbering.{Numbering, Rises};

    ghost Value = { Numbering };

    ghost view = { λ r. record { to = r.to.items; kept = r.kept } };

    ghost invariant = { λ r. (vec_len r.to < 2 ^ 32) × (r.kept ≤ vec_len r.to) × Rises 0 r.to.items r.kept };
}

impl Renumbering {
    ghost use Rattle.std.specs.Prelude.{◌≡◌, ◌<◌, ◌+◌, ◌∷◌, [], ◌++◌, ℕ, Some, None, length, slice_get, IfOk, OnOk, OnErr};
    ghost use Rattle.game_filter.specs.Renumbering.{Rises, renumbered};

    /// The renumbering of a base without games.
    pub fn new(alloc: Global) -> Renumbering
        ensures { result ≡ record { to = []; kept = 0 } }
    {
        Renumbering {
            to: Vec::new(alloc),
            kept: 0,
        }
    }

    /// One more game, which stays. After an error the renumbering is as it was.
    pub fn keep(&mut self) -> Result<(), AllocError>
        requires room { length self.old.to < u32.MAX }
        ensures kept { OnOk result (self.new ≡ record { to = self.old.to ++ Some self.old.kept ∷ []; kept = self.old.kept + 1 }) }
        ensures unchanged { OnErr result (self.new ≡ self.old) }
    {
        self.to.push(Some(self.kept))?;
        self.kept += 1;
        Ok(())
    }

    /// One more game, which goes. After an error the renumbering is as it was.
    pub fn remove(&mut self) -> Result<(), AllocError>
        requires room { length self.old.to < u32.MAX }
        ensures removed { OnOk result (self.new ≡ record self.old { to = self.old.to ++ None ∷ [] }) }
        ensures unchanged { OnErr result (self.new ≡ self.old) }
    {
        self.to.push(None)?;
        Ok(())
    }

    /// The new number of each game, or none if it goes.
    pub fn to(&self) -> &[Option<u32>]
        ensures to { result.now ≡ self.now.to }
        ensures rises { Rises 0 self.now.to self.now.kept }
    {
        self.to.as_slice()
    }

    /// How many games stay.
    pub fn kept(&self) -> u32
        ensures kept { result ≡ self.now.kept }
    {
        self.kept
    }

    /// Leaves of a list of as many games what is listed of those that stay, in their order. Nothing is copied elsewhere.
    pub fn apply<T: Drop>(&self, list: &mut Vec<T>)
        requires same_games { length self.now.to ≡ length list.old.items }
        ensures stayed { list.new.items ≡ renumbered self.now.to list.old.items }
        ensures kept { length list.new.items ≡ self.now.kept }
        ensures entries { (i number : ℕ) → slice_get self.now.to i ≡ Some (Some number) → slice_get list.new.items number ≡ slice_get list.old.items i }
    {
        move_to_front(list.as_mut_slice(), self.to.as_slice());
        list.truncate(self.kept as usize);
    }
}

// Moves what is listed of the games that stay, those with a new number in `to`, to the front, in their order. What stands behind it is of no
// use.
fn move_to_front<T>(list: &mut [T], to: &[Option<u32>])
    requires same_games { length to.now ≡ length list.old }
    ensures moved { take (length (renumbered to.now list.old)) list.new ≡ renumbered to.now list.old }
    ensures len { length list.new ≡ length list.old }
{
    let mut kept = 0;
    for i in 0..list.len() {
        if to[i].is_some() {
            list.swap(kept, i);
            kept += 1;
        }
    }
}
