//! Where bytes go.
ghost use Rattle.std.specs.Prelude.{◌≡◌, ℕ, ◌<◌, ◌≤◌, List, length, take, Option, IfOk, IfErr, OnErr, IsErrOf};
ghost use Rattle.base_files.specs.Told.{adds};
ghost use Rattle.base_files.specs.Causes.{HasCause};

use crate::faults::DeviceError;

/// A taker of bytes.
pub trait Sink {
    // The bytes taken, if the sink tells them.
    ghost taken: { Self → Option (List ℕ) };

    // How many faults it has counted.
    ghost faults: { Self → ℕ };

    /// Takes bytes from the front of `piece`, which is not empty, and says how many: at least one.
    /// An error takes none. A fault is counted, and want of memory is not.
    fn write(&mut self, piece: &[u8]) -> Result<usize, DeviceError>
        requires { 0 < length piece.now }
        ensures some { IfOk result (λ n. 0 < n) }
        ensures fits { IfOk result (λ n. n ≤ length piece.now) }
        ensures added { IfOk result (λ n. taken self.new ≡ adds (taken self.old) (take n piece.now)) }
        ensures none_added { OnErr result (taken self.new ≡ taken self.old) }
        ensures counts { faults self.old ≤ faults self.new }
        ensures cause { IfErr result (λ e. HasCause e (faults self.old) (faults self.new)) }
        ensures memory { IsErrOf result DeviceError.Memory → faults self.new ≡ faults self.old };
}
