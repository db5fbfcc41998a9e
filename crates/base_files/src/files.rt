//! The three files of a base.
ghost use Rattle.std.specs.Prelude.{◌≡◌, ℕ, ◌+◌, ◌≤◌, ◌++◌, length, take, replicate, IfOk, IfErr, OnOk, OnErr, IsErrOf};
ghost use Rattle.base_files.specs.Counters.{Rose, raised};
ghost use Rattle.base_files.specs.Told.{Tells, TellsLength, part_told};
ghost use Rattle.base_files.specs.Parts.{of_part};
ghost use Rattle.base_files.specs.Seen.{Seen, chose, measured, replaced, appended, AppendedInPart, begun, lengthened, LengthenedInPart, committed, FreshAlone};
ghost use Rattle.base_files.specs.Causes.{HasCause};

use crate::faults::{DeviceError, Failed};
use crate::part::Part;
use std::alloc::Global;

/// The index file, the names file and the games file of the base that was chosen.
pub trait Files {
    // The contents that it tells, the names that it was given, and the length of the games file that is known.
    ghost seen: { Self → Seen };

    // How many bytes of the games file it was asked for; this counter stands still at the greatest u64.
    ghost asked: { Self → ℕ };

    // How many faults it has counted.
    ghost faults: { Self → ℕ };

    /// Chooses the base of this name. With `create` each of its files that is absent becomes an empty file;
    /// without it an absent file is a fault. A file that is there is not changed.
    fn choose(&mut self, name: &str, create: bool) -> Result<(), DeviceError>
        ensures chosen { OnOk result (seen self.new ≡ chose name.now create (seen self.old)) }
        ensures chosen_in_vain { IsErrOf result DeviceError.Failed → seen self.new ≡ chose name.now create (seen self.old) }
        ensures not_chosen { IsErrOf result DeviceError.Memory → seen self.new ≡ seen self.old }
        ensures none_asked { asked self.new ≡ asked self.old }
        ensures counts { faults self.old ≤ faults self.new }
        ensures cause { IfErr result (λ e. HasCause e (faults self.old) (faults self.new)) }
        ensures memory { IsErrOf result DeviceError.Memory → faults self.new ≡ faults self.old };

    /// The whole of the index file or of the names file.
    fn load(&mut self, alloc: Global, part: Part) -> Result<Vec<u8>, DeviceError>
        ensures loaded { IfOk result (λ bytes. Tells (of_part part (seen self.old).index (seen self.old).names) bytes.items) }
        ensures unchanged { seen self.new ≡ seen self.old }
        ensures none_asked { asked self.new ≡ asked self.old }
        ensures counts { faults self.old ≤ faults self.new }
        ensures cause { IfErr result (λ e. HasCause e (faults self.old) (faults self.new)) }
        ensures memory { IsErrOf result DeviceError.Memory → faults self.new ≡ faults self.old };

    /// The length of the games file in bytes, which is known from then on.
    fn games_len(&mut self) -> Result<u64, Failed>
        ensures length { IfOk result (λ n. TellsLength (seen self.old).games n) }
        ensures now_known { IfOk result (λ n. seen self.new ≡ measured n (seen self.old)) }
        ensures unchanged { OnErr result (seen self.new ≡ seen self.old) }
        ensures none_asked { asked self.new ≡ asked self.old }
        ensures counts { faults self.old ≤ faults self.new }
        ensures cause { OnErr result (Rose (faults self.old) (faults self.new)) };

    /// Reads the `len` bytes from `offset` on of the games file into the front of `into`.
    /// They lie within the length that is known. They count as asked after a fault too.
    fn read_games(&mut self, offset: u64, len: u32, into: &mut [u8]) -> Result<(), Failed>
        requires room { len ≤ length into.old }
        requires within { offset + len ≤ (seen self.old).known }
        ensures bytes { OnOk result (Tells (part_told (seen self.old).games offset len) (take len into.new)) }
        ensures unchanged { seen self.new ≡ seen self.old }
        ensures asks { asked self.new ≡ raised (asked self.old) len }
        ensures counts { faults self.old ≤ faults self.new }
        ensures cause { OnErr result (Rose (faults self.old) (faults self.new)) };

    /// Adds `pad` zero bytes and then `bytes` at the end of the games file, which is known to be so much longer from then on.
    ///
    /// After a fault the games file begins with what it was, and any bytes may follow. Want of memory changes nothing.
    fn append_games(&mut self, pad: u32, bytes: &[u8]) -> Result<(), DeviceError>
        ensures added { OnOk result (seen self.new ≡ appended (replicate pad 0 ++ bytes.now) (seen self.old)) }
        ensures in_part { IsErrOf result DeviceError.Failed → AppendedInPart (seen self.old) (seen self.new) }
        ensures none_added { IsErrOf result DeviceError.Memory → seen self.new ≡ seen self.old }
        ensures none_asked { asked self.new ≡ asked self.old }
        ensures counts { faults self.old ≤ faults self.new }
        ensures cause { IfErr result (λ e. HasCause e (faults self.old) (faults self.new)) }
        ensures memory { IsErrOf result DeviceError.Memory → faults self.new ≡ faults self.old };

    /// Makes `bytes` the whole of the index file or of the names file. After an error the file is as it was.
    fn replace(&mut self, part: Part, bytes: &[u8]) -> Result<(), DeviceError>
        ensures put { OnOk result (seen self.new ≡ replaced part bytes.now (seen self.old)) }
        ensures unchanged { OnErr result (seen self.new ≡ seen self.old) }
        ensures none_asked { asked self.new ≡ asked self.old }
        ensures counts { faults self.old ≤ faults self.new }
        ensures cause { IfErr result (λ e. HasCause e (faults self.old) (faults self.new)) }
        ensures memory { IsErrOf result DeviceError.Memory → faults self.new ≡ faults self.old };

    /// Makes a new games file beside the current one, or the one that is there empty. The current files stay as they are.
    fn begin_new(&mut self) -> Result<(), DeviceError>
        ensures begun { OnOk result (seen self.new ≡ begun (seen self.old)) }
        ensures fresh_alone { IsErrOf result DeviceError.Failed → FreshAlone (seen self.old) (seen self.new) }
        ensures none_begun { IsErrOf result DeviceError.Memory → seen self.new ≡ seen self.old }
        ensures none_asked { asked self.new ≡ asked self.old }
        ensures counts { faults self.old ≤ faults self.new }
        ensures cause { IfErr result (λ e. HasCause e (faults self.old) (faults self.new)) }
        ensures memory { IsErrOf result DeviceError.Memory → faults self.new ≡ faults self.old };

    /// Adds `pad` zero bytes and then `bytes` at the end of the new games file.
    ///
    /// After a fault the new games file begins with what it was, and any bytes may follow. Want of memory changes nothing.
    fn append_new(&mut self, pad: u32, bytes: &[u8]) -> Result<(), DeviceError>
        ensures added { OnOk result (seen self.new ≡ lengthened (replicate pad 0 ++ bytes.now) (seen self.old)) }
        ensures in_part { IsErrOf result DeviceError.Failed → LengthenedInPart (seen self.old) (seen self.new) }
        ensures none_added { IsErrOf result DeviceError.Memory → seen self.new ≡ seen self.old }
        ensures none_asked { asked self.new ≡ asked self.old }
        ensures counts { faults self.old ≤ faults self.new }
        ensures cause { IfErr result (λ e. HasCause e (faults self.old) (faults self.new)) }
        ensures memory { IsErrOf result DeviceError.Memory → faults self.new ≡ faults self.old };

    /// Makes the new games file and the two given parts the current ones, all three. The length of the games file that is known is
    /// then the number of bytes that were added. After an error all three current files are as they were.
    fn commit_new(&mut self, names: &[u8], index: &[u8]) -> Result<(), DeviceError>
        ensures committed { OnOk result (seen self.new ≡ committed names.now index.now (seen self.old)) }
        ensures fresh_alone { IsErrOf result DeviceError.Failed → FreshAlone (seen self.old) (seen self.new) }
        ensures none_committed { IsErrOf result DeviceError.Memory → seen self.new ≡ seen self.old }
        ensures none_asked { asked self.new ≡ asked self.old }
        ensures counts { faults self.old ≤ faults self.new }
        ensures cause { IfErr result (λ e. HasCause e (faults self.old) (faults self.new)) }
        ensures memory { IsErrOf result DeviceError.Memory → faults self.new ≡ faults self.old };
}
