//! The files of a base in memory.
ghost use Rattle.std.specs.Prelude.{◌≡◌, ◌+◌, ◌≤◌, [], ◌∷◌, ◌++◌, length, take, drop, replicate, IfOk, IfErr, OnOk, OnErr, IsErrOf, MatchResult};
ghost use Rattle.base_files.specs.Counters.{Rose, raised};
ghost use Rattle.base_files.specs.Chosen.{choice};
ghost use Rattle.base_files.specs.Parts.{of_part};
ghost use Rattle.base_files.specs.Causes.{HasCause};
ghost use Rattle.base_files.specs.Planned.{Served, FailedAsPlanned, Refused};
ghost use Rattle.base_files.specs.Shelves.{Shelf, new_shelf, changing_shelf, changed, seen_of, put_on, committed_on};
ghost use Rattle.base_files.specs.Told.{IsPrefix};

use crate::chosen::Choices;
use crate::faults::{DeviceError, Failed};
use crate::files::Files;
use crate::part::Part;
use crate::plan::Plan;
use crate::swap::{Swap, put_swaps};
use std::alloc::{AllocError, Global};
use std::marker::Model;
use std::mem;

/// Three contents in memory, which are always there, and the new games file. If adding to the games file fails, a front part is
/// written. The games file may change by itself: then nothing is told of them.
#[derive(Drop)]
pub struct MemFiles {
    index: Vec<u8>,
    names: Vec<u8>,
    games: Vec<u8>,
    fresh: Vec<u8>,
    choices: Choices,
    known: u64,
    asked: u64,
    plan: Plan,
    swaps: Option<Vec<Swap>>,
}

impl Model for MemFiles {
    ghost use Rattle.std.specs.Prelude.{◌≤◌, length};
    ghost use Rattle.base_files.specs.Shelves.{Shelf};
    ghost use Rattle.base_files.specs.Swaps.{swaps_of};

    ghost Value = { Shelf };

    ghost view = { λ files. record {
      index = files.index.items;
      names = files.names.items;
      games = files.games.items;
      fresh = files.fresh.items;
      choices = files.choices;
      known = files.known;
      asked = files.asked;
      calls = files.plan;
      swaps = swaps_of files.swaps;
    } };

    ghost invariant = { λ files. files.known ≤ length files.games.items };
}

impl MemFiles {
    /// Files of these contents. The calls of these numbers fail, counted from 0.
    pub fn new(index: Vec<u8>, names: Vec<u8>, games: Vec<u8>, fails: Vec<u64>) -> MemFiles
        ensures { result ≡ new_shelf index.items names.items games.items fails.items }
    {
        MemFiles {
            choices: Choices::new(*index.allocator()),
            fresh: Vec::new(*index.allocator()),
            index,
            names,
            games,
            known: 0,
            asked: 0,
            plan: Plan::new(fails),
            swaps: None,
        }
    }

    /// Files of these contents, of which nothing is told. Before the call of a swap's number, counted from 0, its byte is put at its
    /// place of the games file; a place past the end changes nothing. No call fails.
    pub fn changing(index: Vec<u8>, names: Vec<u8>, games: Vec<u8>, swaps: Vec<Swap>) -> MemFiles
        ensures { result ≡ changing_shelf index.items names.items games.items swaps.items }
    {
        MemFiles {
            choices: Choices::new(*index.allocator()),
            fresh: Vec::new(*index.allocator()),
            plan: Plan::new(Vec::new(*index.allocator())),
            index,
            names,
            games,
            known: 0,
            asked: 0,
            swaps: Some(swaps),
        }
    }

    // Puts the bytes that are planned before the next call.
    fn change(&mut self)
        ensures put { self.new ≡ changed self.old }
        ensures len { length self.new.games ≡ length self.old.games }
    {
        if let Some(swaps) = &self.swaps {
            put_swaps(self.plan.made(), swaps, &mut self.games);
        }
    }

    /// The contents of the index file.
    pub fn index(&self) -> &[u8]
        ensures { result.now ≡ self.now.index }
    {
        self.index.as_slice()
    }

    /// The contents of the names file.
    pub fn names(&self) -> &[u8]
        ensures { result.now ≡ self.now.names }
    {
        self.names.as_slice()
    }

    /// The contents of the games file.
    pub fn games(&self) -> &[u8]
        ensures { result.now ≡ self.now.games }
    {
        self.games.as_slice()
    }

    /// How many bytes of the games file were asked for, up to 18,446,744,073,709,551,615.
    pub fn asked(&self) -> u64
        ensures { result ≡ self.now.asked }
    {
        self.asked
    }
}

impl Files for MemFiles {
    ghost seen = { λ files. seen_of files };

    ghost asked = { λ files. files.asked };

    ghost faults = { λ files. files.calls.faults };

    fn choose(&mut self, name: &str, create: bool) -> Result<(), DeviceError>
        ensures chosen { OnOk result (self.new.choices ≡ self.old.choices ++ choice name.now create ∷ []) }
        ensures chosen_in_vain { IsErrOf result DeviceError.Failed → self.new.choices ≡ self.old.choices ++ choice name.now create ∷ [] }
        ensures not_chosen { IsErrOf result DeviceError.Memory → self.new.choices ≡ self.old.choices }
        ensures counts { self.old.calls.faults ≤ self.new.calls.faults }
        ensures cause { IfErr result (λ e. HasCause e self.old.calls.faults self.new.calls.faults) }
        ensures memory { IsErrOf result DeviceError.Memory → self.new.calls.faults ≡ self.old.calls.faults }

        // More than all files promise: which calls fail, and that nothing else changes.
        ensures planned { MatchResult result (λ _. Served self.old.calls self.new.calls) (λ e. Refused e self.old.calls self.new.calls) }
        ensures rest { self.new ≡ record (changed self.old) { choices = self.new.choices; calls = self.new.calls } }
    {
        self.change();
        if self.choices.add(name, create).is_err() {
            self.plan.pass();
            return Err(DeviceError::Memory);
        }
        self.plan.begin()?;
        Ok(())
    }

    fn load(&mut self, alloc: Global, part: Part) -> Result<Vec<u8>, DeviceError>
        ensures loaded { IfOk result (λ bytes. bytes.items ≡ of_part part self.old.index self.old.names) }
        ensures counts { self.old.calls.faults ≤ self.new.calls.faults }
        ensures cause { IfErr result (λ e. HasCause e self.old.calls.faults self.new.calls.faults) }
        ensures memory { IsErrOf result DeviceError.Memory → self.new.calls.faults ≡ self.old.calls.faults }

        // More than all files promise: which calls fail, and that nothing else changes.
        ensures planned { MatchResult result (λ _. Served self.old.calls self.new.calls) (λ e. Refused e self.old.calls self.new.calls) }
        ensures rest { self.new ≡ record (changed self.old) { calls = self.new.calls } }
    {
        self.change();
        self.plan.begin()?;
        let bytes = match part {
            Part::Index => &self.index,
            Part::Names => &self.names,
        };
        Ok(Vec::from_slice(alloc, bytes)?)
    }

    fn games_len(&mut self) -> Result<u64, Failed>
        ensures length { IfOk result (λ n. n ≡ length self.old.games) }
        ensures now_known { IfOk result (λ n. self.new.known ≡ n) }
        ensures as_known { OnErr result (self.new.known ≡ self.old.known) }
        ensures counts { self.old.calls.faults ≤ self.new.calls.faults }
        ensures cause { OnErr result (Rose self.old.calls.faults self.new.calls.faults) }

        // More than all files promise: which calls fail, and that nothing else changes.
        ensures planned { MatchResult result (λ _. Served self.old.calls self.new.calls) (λ _. FailedAsPlanned self.old.calls self.new.calls) }
        ensures rest { self.new ≡ record (changed self.old) { known = self.new.known; calls = self.new.calls } }
    {
        self.change();
        self.plan.begin()?;
        self.known = self.games.len() as u64;
        Ok(self.known)
    }

    fn read_games(&mut self, offset: u64, len: u32, into: &mut [u8]) -> Result<(), Failed>
        requires room { len ≤ length into.old }
        requires within { offset + len ≤ self.old.known }
        ensures bytes { OnOk result (take len into.new ≡ take len (drop offset self.new.games)) }
        ensures asks { self.new.asked ≡ raised self.old.asked len }
        ensures counts { self.old.calls.faults ≤ self.new.calls.faults }
        ensures cause { OnErr result (Rose self.old.calls.faults self.new.calls.faults) }

        // More than all files promise: which calls fail, and that nothing else changes.
        ensures planned { MatchResult result (λ _. Served self.old.calls self.new.calls) (λ _. FailedAsPlanned self.old.calls self.new.calls) }
        ensures rest { self.new ≡ record (changed self.old) { asked = self.new.asked; calls = self.new.calls } }
    {
        self.asked = self.asked.saturating_add(len as u64);
        self.change();
        self.plan.begin()?;
        let start = offset as usize;
        let len = len as usize;
        into[..len].copy_from_slice(&self.games[start..start + len]);
        Ok(())
    }

    fn append_games(&mut self, pad: u32, bytes: &[u8]) -> Result<(), DeviceError>
        ensures added { OnOk result (self.new.games ≡ (changed self.old).games ++ (replicate pad 0 ++ bytes.now)) }
        ensures now_known { OnOk result (self.new.known ≡ self.old.known + length (replicate pad 0 ++ bytes.now)) }
        ensures in_part { OnErr result (IsPrefix (changed self.old).games self.new.games × (self.new.known ≡ self.old.known)) }
        ensures none_added { IsErrOf result DeviceError.Memory → self.new.games ≡ (changed self.old).games }
        ensures counts { self.old.calls.faults ≤ self.new.calls.faults }
        ensures cause { IfErr result (λ e. HasCause e self.old.calls.faults self.new.calls.faults) }
        ensures memory { IsErrOf result DeviceError.Memory → self.new.calls.faults ≡ self.old.calls.faults }

        // More than all files promise: which calls fail, and that nothing else changes.
        ensures planned { MatchResult result (λ _. Served self.old.calls self.new.calls) (λ e. Refused e self.old.calls self.new.calls) }
        ensures rest { self.new ≡ record (changed self.old) { games = self.new.games; known = self.new.known; calls = self.new.calls } }
    {
        self.change();
        if let Err(failed) = self.plan.begin() {
            add_torn(&mut self.games, pad, bytes);
            return Err(DeviceError::from(failed));
        }
        add_padded(&mut self.games, pad, bytes)?;
        self.known += pad as u64 + bytes.len() as u64;
        Ok(())
    }

    fn replace(&mut self, part: Part, bytes: &[u8]) -> Result<(), DeviceError>
        ensures put { OnOk result (self.new ≡ put_on part bytes.now (record (changed self.old) { calls = self.new.calls })) }
        ensures unchanged { OnErr result (self.new ≡ record (changed self.old) { calls = self.new.calls }) }
        ensures counts { self.old.calls.faults ≤ self.new.calls.faults }
        ensures cause { IfErr result (λ e. HasCause e self.old.calls.faults self.new.calls.faults) }
        ensures memory { IsErrOf result DeviceError.Memory → self.new.calls.faults ≡ self.old.calls.faults }

        // More than all files promise: which calls fail.
        ensures planned { MatchResult result (λ _. Served self.old.calls self.new.calls) (λ e. Refused e self.old.calls self.new.calls) }
    {
        self.change();
        self.plan.begin()?;
        let bytes = Vec::from_slice(*self.games.allocator(), bytes)?;
        match part {
            Part::Index => self.index = bytes,
            Part::Names => self.names = bytes,
        }
        Ok(())
    }

    fn begin_new(&mut self) -> Result<(), DeviceError>
        ensures begun { OnOk result (self.new.fresh ≡ []) }
        ensures none_begun { OnErr result (self.new.fresh ≡ self.old.fresh) }
        ensures counts { self.old.calls.faults ≤ self.new.calls.faults }
        ensures cause { IfErr result (λ e. HasCause e self.old.calls.faults self.new.calls.faults) }
        ensures memory { IsErrOf result DeviceError.Memory → self.new.calls.faults ≡ self.old.calls.faults }

        // More than all files promise: which calls fail, and that nothing else changes.
        ensures planned { MatchResult result (λ _. Served self.old.calls self.new.calls) (λ e. Refused e self.old.calls self.new.calls) }
        ensures rest { self.new ≡ record (changed self.old) { fresh = self.new.fresh; calls = self.new.calls } }
    {
        self.change();
        self.plan.begin()?;
        self.fresh.clear();
        Ok(())
    }

    fn append_new(&mut self, pad: u32, bytes: &[u8]) -> Result<(), DeviceError>
        ensures added { OnOk result (self.new.fresh ≡ self.old.fresh ++ (replicate pad 0 ++ bytes.now)) }
        ensures none_added { OnErr result (self.new.fresh ≡ self.old.fresh) }
        ensures counts { self.old.calls.faults ≤ self.new.calls.faults }
        ensures cause { IfErr result (λ e. HasCause e self.old.calls.faults self.new.calls.faults) }
        ensures memory { IsErrOf result DeviceError.Memory → self.new.calls.faults ≡ self.old.calls.faults }

        // More than all files promise: which calls fail, and that nothing else changes.
        ensures planned { MatchResult result (λ _. Served self.old.calls self.new.calls) (λ e. Refused e self.old.calls self.new.calls) }
        ensures rest { self.new ≡ record (changed self.old) { fresh = self.new.fresh; calls = self.new.calls } }
    {
        self.change();
        self.plan.begin()?;
        add_padded(&mut self.fresh, pad, bytes)?;
        Ok(())
    }

    fn commit_new(&mut self, names: &[u8], index: &[u8]) -> Result<(), DeviceError>
        ensures committed { OnOk result (self.new ≡ committed_on names.now index.now (record (changed self.old) { calls = self.new.calls })) }
        ensures none_committed { OnErr result (self.new ≡ record (changed self.old) { calls = self.new.calls }) }
        ensures counts { self.old.calls.faults ≤ self.new.calls.faults }
        ensures cause { IfErr result (λ e. HasCause e self.old.calls.faults self.new.calls.faults) }
        ensures memory { IsErrOf result DeviceError.Memory → self.new.calls.faults ≡ self.old.calls.faults }

        // More than all files promise: which calls fail.
        ensures planned { MatchResult result (λ _. Served self.old.calls self.new.calls) (λ e. Refused e self.old.calls self.new.calls) }
    {
        self.change();
        self.plan.begin()?;
        let alloc = *self.games.allocator();
        let names = Vec::from_slice(alloc, names)?;
        let index = Vec::from_slice(alloc, index)?;
        self.names = names;
        self.index = index;
        self.games = mem::replace(&mut self.fresh, Vec::new(alloc));
        self.known = self.games.len() as u64;
        Ok(())
    }
}

// Adds so many zero bytes and then the bytes at the end. If memory runs out, the list is as it was.
fn add_padded(list: &mut Vec<u8>, pad: u32, bytes: &[u8]) -> Result<(), AllocError>
    ensures added { OnOk result (list.new.items ≡ list.old.items ++ (replicate pad 0 ++ bytes.now)) }
    ensures unchanged { OnErr result (list.new.items ≡ list.old.items) }
{
    let len = list.len();
    list.resize(len + pad as usize, 0)?;
    if let Err(refused) = list.extend_from_slice(bytes) {
        list.truncate(len);
        return Err(refused);
    }
    Ok(())
}

// Adds what a device has written when it fails: the zero bytes and the first half of the bytes, or nothing if memory runs out.
fn add_torn(list: &mut Vec<u8>, pad: u32, bytes: &[u8])
    ensures in_part { IsPrefix list.old.items list.new.items }
{
    let _ = add_padded(list, pad, &bytes[..bytes.len() / 2]);
}
