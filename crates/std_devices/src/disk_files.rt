//! The files of a base on a disk.
ghost use Rattle.std.specs.Prelude.{◌≡◌, ◌+◌, ◌≤◌, [], ◌++◌, length, replicate, IfOk, IfErr, OnOk, OnErr, IsErrOf, MatchResult};
ghost use Rattle.base_files.specs.Counters.{Rose, raised};
ghost use Rattle.base_files.specs.Causes.{HasCause, after_error};
ghost use Rattle.base_files.specs.Seen.{chose, measured, appended, replaced, AppendedInPart, begun, lengthened, LengthenedInPart, committed, FreshAlone};
ghost use Rattle.std_devices.specs.Meters.{seen_of};

use crate::bounds::Reach;
use crate::disk_base::{Blocks, DiskBase};
use crate::held::Held;
use crate::opening::{make_base, open_base};
use crate::places::{Places, Trio};
use crate::trouble::{Trouble, say};
use base_files::{Choices, DeviceError, Failed, FaultCount, Files, Part};
use std::alloc::Global;
use std::marker::Model;

// Where the files of a base come from.
#[derive(Clone, Copy, PartialEq, Eq, Drop)]
enum Origin {
    // They are opened.
    Opened,
    // They are opened, and the index is read as far as it goes.
    Whole,
    // They are made, and none of them may be there.
    Made,
}

/// The files `BASE.si4`, `BASE.sn4` and `BASE.sg4` on the disks of the host. It tells nothing of their contents.
/// All three are opened once, by `choose`. Why a file can't be used is said on standard error.
#[derive(Drop)]
pub struct DiskFiles<'r> {
    system: &'r HostRuntime,
    alloc: Global,
    origin: Origin,
    base: Option<DiskBase>,
    choices: Choices,
    known: u64,
    // How many bytes were added to the new games file since it was begun.
    added: u64,
    asked: u64,
    faults: FaultCount,
}

impl<'r> Model for DiskFiles<'r> {
    ghost use Rattle.std_devices.specs.Meters.{DiskMeter};

    ghost Value = { DiskMeter };

    ghost view = { λ files. record { choices = files.choices; known = files.known; added = files.added; asked = files.asked; faults = files.faults } };
}

impl<'r> DiskFiles<'r> {
    /// Files of the host, of which no base was chosen yet.
    pub fn new(alloc: Global, system: &'r HostRuntime) -> DiskFiles<'r>
        ensures { result ≡ record { choices = []; known = 0; added = 0; asked = 0; faults = 0 } }
    {
        DiskFiles::with(alloc, system, Origin::Opened)
    }

    /// The same of a base that may be faulty: its index is read as far as it goes, also behind the entries that its header counts.
    pub fn of_faulty_base(alloc: Global, system: &'r HostRuntime) -> DiskFiles<'r>
        ensures { result ≡ record { choices = []; known = 0; added = 0; asked = 0; faults = 0 } }
    {
        DiskFiles::with(alloc, system, Origin::Whole)
    }

    /// The same of a new base: choosing it makes its three files, of which none may be there. No link is followed.
    pub fn of_new_base(alloc: Global, system: &'r HostRuntime) -> DiskFiles<'r>
        ensures { result ≡ record { choices = []; known = 0; added = 0; asked = 0; faults = 0 } }
    {
        DiskFiles::with(alloc, system, Origin::Made)
    }

    fn with(alloc: Global, system: &'r HostRuntime, origin: Origin) -> DiskFiles<'r>
        ensures { result ≡ record { choices = []; known = 0; added = 0; asked = 0; faults = 0 } }
    {
        DiskFiles {
            system,
            alloc,
            origin,
            base: None,
            choices: Choices::new(alloc),
            known: 0,
            added: 0,
            asked: 0,
            faults: FaultCount::new(),
        }
    }

    /// Ends the work on the base: what was added and waits is written, if that goes, and a new games file that was begun and not committed
    /// is removed.
    pub fn close(&mut self)
        ensures same { self.new ≡ self.old }
    {
        if let Some(mut base) = self.base.take() {
            // No index points to what was not saved, so nothing is lost if this fails.
            let _ = base.write_waiting(self.system);
            base.end(self.system);
        }
    }

    /// Ends the work on a new base of which nothing was put in its place: its files, which are empty, are removed.
    pub fn take_away(&mut self)
        ensures same { self.new ≡ self.old }
    {
        if let Some(mut base) = self.base.take() {
            base.take_away(self.system);
        }
    }
}

impl<'r> Files for DiskFiles<'r> {
    ghost seen = { λ files. seen_of files };

    ghost asked = { λ files. files.asked };

    ghost faults = { λ files. files.faults };

    fn choose(&mut self, name: &str, create: bool) -> Result<(), DeviceError>
        ensures chosen { OnOk result (seen_of self.new ≡ chose name.now create (seen_of self.old)) }
        ensures chosen_in_vain { IsErrOf result DeviceError.Failed → seen_of self.new ≡ chose name.now create (seen_of self.old) }
        ensures not_chosen { IsErrOf result DeviceError.Memory → seen_of self.new ≡ seen_of self.old }
        ensures counts { self.old.faults ≤ self.new.faults }
        ensures cause { IfErr result (λ e. HasCause e self.old.faults self.new.faults) }
        ensures memory { IsErrOf result DeviceError.Memory → self.new.faults ≡ self.old.faults }

        // More than all files promise: a fault is counted once, and nothing else changes.
        ensures counted { MatchResult result (λ _. self.new.faults ≡ self.old.faults) (λ e. self.new.faults ≡ after_error e self.old.faults) }
        ensures rest { self.new ≡ record self.old { choices = self.new.choices; faults = self.new.faults } }
    {
        let named = match self.origin {
            Origin::Opened | Origin::Whole => Places::new(self.alloc, self.system, name),
            Origin::Made => Places::unfollowed(self.alloc, name),
        };
        let places = match named {
            Ok(places) => places,
            Err(_) => return Err(DeviceError::Memory),
        };
        let blocks = match Blocks::new(self.alloc) {
            Ok(blocks) => blocks,
            Err(_) => return Err(DeviceError::Memory),
        };
        if self.choices.add(name, create).is_err() {
            return Err(DeviceError::Memory);
        }
        let origin = self.origin;
        let opened = open(&mut self.base, self.system, places, blocks, origin, create);
        match opened {
            Ok(()) => Ok(()),
            Err(_) => Err(DeviceError::from(self.faults.fault())),
        }
    }

    fn load(&mut self, alloc: Global, part: Part) -> Result<Vec<u8>, DeviceError>
        ensures counts { self.old.faults ≤ self.new.faults }
        ensures cause { IfErr result (λ e. HasCause e self.old.faults self.new.faults) }
        ensures memory { IsErrOf result DeviceError.Memory → self.new.faults ≡ self.old.faults }

        // More than all files promise: a fault is counted once, and nothing else changes.
        ensures counted { MatchResult result (λ _. self.new.faults ≡ self.old.faults) (λ e. self.new.faults ≡ after_error e self.old.faults) }
        ensures rest { self.new ≡ record self.old { faults = self.new.faults } }
    {
        let Some(base) = &mut self.base else {
            return Err(DeviceError::from(self.faults.fault()));
        };
        let reach = match self.origin {
            Origin::Whole => Reach::All,
            Origin::Opened | Origin::Made => Reach::Counted,
        };
        match base.load(alloc, part, reach) {
            Ok(bytes) => Ok(bytes),
            Err(trouble) => {
                tell(self.system, base, &trouble);
                Err(self.faults.error(trouble.kind()))
            }
        }
    }

    fn games_len(&mut self) -> Result<u64, Failed>
        ensures now_known { IfOk result (λ n. seen_of self.new ≡ measured n (seen_of self.old)) }
        ensures unchanged { OnErr result (seen_of self.new ≡ seen_of self.old) }
        ensures counts { self.old.faults ≤ self.new.faults }
        ensures cause { OnErr result (Rose self.old.faults self.new.faults) }

        // More than all files promise: a fault is counted once, and nothing else changes.
        ensures counted { MatchResult result (λ _. self.new.faults ≡ self.old.faults) (λ _. self.new.faults ≡ raised self.old.faults 1) }
        ensures rest { self.new ≡ record self.old { known = self.new.known; faults = self.new.faults } }
    {
        let Some(base) = &mut self.base else {
            return Err(self.faults.fault());
        };
        match base.games_len() {
            Ok(len) => {
                self.known = len;
                Ok(len)
            }
            Err(trouble) => {
                tell(self.system, base, &trouble);
                Err(self.faults.fault())
            }
        }
    }

    fn read_games(&mut self, offset: u64, len: u32, into: &mut [u8]) -> Result<(), Failed>
        requires room { len ≤ length into.old }
        requires within { offset + len ≤ self.old.known }
        ensures asks { self.new.asked ≡ raised self.old.asked len }
        ensures counts { self.old.faults ≤ self.new.faults }
        ensures cause { OnErr result (Rose self.old.faults self.new.faults) }

        // More than all files promise: a fault is counted once, and nothing else changes.
        ensures counted { MatchResult result (λ _. self.new.faults ≡ self.old.faults) (λ _. self.new.faults ≡ raised self.old.faults 1) }
        ensures rest { self.new ≡ record self.old { asked = self.new.asked; faults = self.new.faults } }
    {
        self.asked = self.asked.saturating_add(len as u64);
        let Some(base) = &mut self.base else {
            return Err(self.faults.fault());
        };
        match base.read_games(self.system, offset, &mut into[..len as usize]) {
            Ok(()) => Ok(()),
            Err(trouble) => {
                tell(self.system, base, &trouble);
                Err(self.faults.fault())
            }
        }
    }

    fn append_games(&mut self, pad: u32, bytes: &[u8]) -> Result<(), DeviceError>
        ensures added { OnOk result (seen_of self.new ≡ appended (replicate pad 0 ++ bytes.now) (seen_of self.old)) }
        ensures in_part { IsErrOf result DeviceError.Failed → AppendedInPart (seen_of self.old) (seen_of self.new) }
        ensures none_added { IsErrOf result DeviceError.Memory → seen_of self.new ≡ seen_of self.old }
        ensures counts { self.old.faults ≤ self.new.faults }
        ensures cause { IfErr result (λ e. HasCause e self.old.faults self.new.faults) }
        ensures memory { IsErrOf result DeviceError.Memory → self.new.faults ≡ self.old.faults }

        // More than all files promise: a fault is counted once, and nothing else changes.
        ensures counted { MatchResult result (λ _. self.new.faults ≡ self.old.faults) (λ e. self.new.faults ≡ after_error e self.old.faults) }
        ensures rest { self.new ≡ record self.old { known = self.new.known; faults = self.new.faults } }
    {
        let added = pad as u64 + bytes.len() as u64;
        let Some(known) = self.known.checked_add(added) else {
            return Err(DeviceError::from(self.faults.fault()));
        };
        let Some(base) = &mut self.base else {
            return Err(DeviceError::from(self.faults.fault()));
        };
        match base.append_games(self.system, self.known, pad, bytes) {
            Ok(()) => {
                self.known = known;
                Ok(())
            }
            Err(trouble) => {
                tell(self.system, base, &trouble);
                Err(DeviceError::from(self.faults.fault()))
            }
        }
    }

    #[tactic(auto, using(crate::proofs::Untold::untold_replaced))]
    fn replace(&mut self, part: Part, bytes: &[u8]) -> Result<(), DeviceError>
        ensures put { OnOk result (seen_of self.new ≡ replaced part bytes.now (seen_of self.old)) }
        ensures unchanged { OnErr result (seen_of self.new ≡ seen_of self.old) }
        ensures counts { self.old.faults ≤ self.new.faults }
        ensures cause { IfErr result (λ e. HasCause e self.old.faults self.new.faults) }
        ensures memory { IsErrOf result DeviceError.Memory → self.new.faults ≡ self.old.faults }

        // More than all files promise: a fault is counted once, and nothing else changes.
        ensures counted { MatchResult result (λ _. self.new.faults ≡ self.old.faults) (λ e. self.new.faults ≡ after_error e self.old.faults) }
        ensures rest { self.new ≡ record self.old { faults = self.new.faults } }
    {
        let Some(base) = &mut self.base else {
            return Err(DeviceError::from(self.faults.fault()));
        };
        match base.replace(self.system, part, bytes) {
            Ok(()) => Ok(()),
            Err(trouble) => {
                tell(self.system, base, &trouble);
                Err(self.faults.error(trouble.kind()))
            }
        }
    }

    fn begin_new(&mut self) -> Result<(), DeviceError>
        ensures begun { OnOk result (seen_of self.new ≡ begun (seen_of self.old)) }
        ensures fresh_alone { IsErrOf result DeviceError.Failed → FreshAlone (seen_of self.old) (seen_of self.new) }
        ensures none_begun { IsErrOf result DeviceError.Memory → seen_of self.new ≡ seen_of self.old }
        ensures counts { self.old.faults ≤ self.new.faults }
        ensures cause { IfErr result (λ e. HasCause e self.old.faults self.new.faults) }
        ensures memory { IsErrOf result DeviceError.Memory → self.new.faults ≡ self.old.faults }

        // More than all files promise: a fault is counted once, and nothing else changes.
        ensures counted { MatchResult result (λ _. self.new.faults ≡ self.old.faults) (λ e. self.new.faults ≡ after_error e self.old.faults) }
        ensures rest { self.new ≡ record self.old { added = self.new.added; faults = self.new.faults } }
    {
        let Some(base) = &mut self.base else {
            return Err(DeviceError::from(self.faults.fault()));
        };
        match base.begin_new(self.alloc, self.system) {
            Ok(()) => {
                self.added = 0;
                Ok(())
            }
            Err(trouble) => {
                tell(self.system, base, &trouble);
                Err(self.faults.error(trouble.kind()))
            }
        }
    }

    fn append_new(&mut self, pad: u32, bytes: &[u8]) -> Result<(), DeviceError>
        ensures added { OnOk result (seen_of self.new ≡ lengthened (replicate pad 0 ++ bytes.now) (seen_of self.old)) }
        ensures in_part { IsErrOf result DeviceError.Failed → LengthenedInPart (seen_of self.old) (seen_of self.new) }
        ensures none_added { IsErrOf result DeviceError.Memory → seen_of self.new ≡ seen_of self.old }
        ensures counts { self.old.faults ≤ self.new.faults }
        ensures cause { IfErr result (λ e. HasCause e self.old.faults self.new.faults) }
        ensures memory { IsErrOf result DeviceError.Memory → self.new.faults ≡ self.old.faults }

        // More than all files promise: a fault is counted once, and nothing else changes.
        ensures counted { MatchResult result (λ _. self.new.faults ≡ self.old.faults) (λ e. self.new.faults ≡ after_error e self.old.faults) }
        ensures rest { self.new ≡ record self.old { added = self.new.added; faults = self.new.faults } }
    {
        let more = pad as u64 + bytes.len() as u64;
        let Some(added) = self.added.checked_add(more) else {
            return Err(DeviceError::from(self.faults.fault()));
        };
        let Some(base) = &mut self.base else {
            return Err(DeviceError::from(self.faults.fault()));
        };
        match base.append_new(pad, bytes) {
            Ok(()) => {
                self.added = added;
                Ok(())
            }
            Err(trouble) => {
                tell(self.system, base, &trouble);
                Err(DeviceError::from(self.faults.fault()))
            }
        }
    }

    fn commit_new(&mut self, names: &[u8], index: &[u8]) -> Result<(), DeviceError>
        ensures committed { OnOk result (seen_of self.new ≡ committed names.now index.now (seen_of self.old)) }
        ensures fresh_alone { IsErrOf result DeviceError.Failed → FreshAlone (seen_of self.old) (seen_of self.new) }
        ensures none_committed { IsErrOf result DeviceError.Memory → seen_of self.new ≡ seen_of self.old }
        ensures counts { self.old.faults ≤ self.new.faults }
        ensures cause { IfErr result (λ e. HasCause e self.old.faults self.new.faults) }
        ensures memory { IsErrOf result DeviceError.Memory → self.new.faults ≡ self.old.faults }

        // More than all files promise: a fault is counted once, and nothing else changes.
        ensures counted { MatchResult result (λ _. self.new.faults ≡ self.old.faults) (λ e. self.new.faults ≡ after_error e self.old.faults) }
        ensures rest { self.new ≡ record self.old { known = self.new.known; added = self.new.added; faults = self.new.faults } }
    {
        let Some(base) = &mut self.base else {
            return Err(DeviceError::from(self.faults.fault()));
        };
        match base.commit_new(self.system, self.added, names, index) {
            Ok(()) => {
                self.known = self.added;
                self.added = 0;
                Ok(())
            }
            Err(trouble) => {
                tell(self.system, base, &trouble);
                Err(self.faults.error(trouble.kind()))
            }
        }
    }
}

// Opens or makes a base in the place of the one that is there, and says why that fails. Then there is none.
fn open(
    base: &mut Option<DiskBase>,
    system: &HostRuntime,
    mut places: Places,
    blocks: Blocks,
    origin: Origin,
    create: bool,
) -> Result<(), Failed> {
    *base = None;
    match files_of(system, &mut places, origin, create) {
        Ok(files) => {
            *base = Some(DiskBase::new(places, files, blocks));
            Ok(())
        }
        Err(trouble) => {
            say(system, &places, &trouble);
            Err(Failed)
        }
    }
}

// The files of a base.
fn files_of(
    system: &HostRuntime,
    places: &mut Places,
    origin: Origin,
    create: bool,
) -> Result<Trio<Held>, Trouble> {
    if let Some(trouble) = places.take_lost() {
        return Err(trouble);
    }
    match origin {
        Origin::Opened | Origin::Whole => open_base(system, places, create),
        Origin::Made => make_base(system, places),
    }
}

// Says what is wrong with a file of the base.
fn tell(system: &HostRuntime, base: &DiskBase, trouble: &Trouble) {
    say(system, base.places(), trouble);
}
