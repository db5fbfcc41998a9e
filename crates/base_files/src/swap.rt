//! Bytes of a games file in memory that change by themselves.
ghost use Rattle.std.specs.Prelude.{◌≡◌, length};
ghost use Rattle.base_files.specs.Swaps.{after_swap, swapped};

/// A byte that is put at a place of the games file before the call of a number, counted from 0.
#[derive(Clone, Copy, Debug, PartialEq, Eq)]
pub struct Swap {
    pub before: u64,
    pub place: u64,
    pub byte: u8,
}

/// Puts the bytes that are planned before the call of this number, one after the other. A place past the end changes nothing.
pub fn put_swaps(call: u64, swaps: &[Swap], games: &mut [u8])
    ensures put { games.new ≡ swapped call swaps.now games.old }
    ensures len { length games.new ≡ length games.old }
{
    for swap in swaps {
        put_swap(call, swap, games);
    }
}

// Puts the byte, if the call has its number.
fn put_swap(call: u64, swap: &Swap, games: &mut [u8])
    ensures put { games.new ≡ after_swap call swap.now games.old }
    ensures len { length games.new ≡ length games.old }
{
    let place = swap.place as usize;
    if swap.before == call && place < games.len() {
        games[place] = swap.byte;
    }
}
