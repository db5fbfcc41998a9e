//! Where bytes come from.
ghost use Rattle.std.specs.Prelude.{◌≡◌, ℕ, ◌+◌, ◌<◌, ◌≤◌, List, [], length, take, Option, IfOk, OnErr};
ghost use Rattle.base_files.specs.Counters.{Rose};
ghost use Rattle.base_files.specs.Told.{before, Tells};

use crate::faults::Failed;

/// A source of bytes, read to its end once.
pub trait Source {
    // The bytes left, if the source tells them.
    ghost left: { Self → Option (List ℕ) };

    // At most how many bytes it will still give: a number for every source, so that every loop over a source ends.
    ghost budget: { Self → ℕ };

    // How many faults it has counted.
    ghost faults: { Self → ℕ };

    // What it reads from, which no call changes: the ghost names of what it borrows, and nothing if it has its bytes itself.
    ghost origin: { Self → List ℕ };

    /// Reads the next bytes into the front of `into`, which is not empty, and says how many: none only at the end of the input.
    /// A fault takes no byte, and is counted.
    fn read(&mut self, into: &mut [u8]) -> Result<usize, Failed>
        requires { 0 < length into.old }
        ensures fits { IfOk result (λ n. n ≤ length into.old) }
        ensures given { IfOk result (λ n. left self.old ≡ before (take n into.new) (left self.new)) }
        ensures end { IfOk result (λ n. n ≡ 0 → Tells (left self.new) []) }
        ensures spent { IfOk result (λ n. budget self.new + n ≡ budget self.old) }
        ensures none_lost { OnErr result (left self.new ≡ left self.old) }
        ensures none_spent { OnErr result (budget self.new ≡ budget self.old) }
        ensures counts { faults self.old ≤ faults self.new }
        ensures cause { OnErr result (Rose (faults self.old) (faults self.new)) }
        ensures same { origin self.new ≡ origin self.old };
}
