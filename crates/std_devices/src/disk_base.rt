//! The three files of one base on a disk: two that are read and replaced whole, and the games file, which is read by blocks.
use crate::ahead::Ahead;
use crate::bounds::{Reach, read_part};
use crate::claim::claim;
use crate::found::is_there;
use crate::held::{Held, Stamp, has_name, remove_if_same};
use crate::new_games::{NewGames, write_padded};
use crate::opening::{look_at, remove_made};
use crate::places::{Kind, Places, Spot, Trio};
use crate::renames::{Undone, hand_on_folder, put_all, rename};
use crate::rights::{Rights, give_rights};
use crate::trouble::{OnFile, Trouble, Why, say_narrower};
use crate::waiting::Waiting;
use base_files::Part;
use std::alloc::{AllocError, Global};
use std::fs::{File, OpenOptions};
use std::io::{ErrorKind, Read, Seek, SeekFrom, Write};
use std::os::unix::fs::OpenOptionsExt;
use std::{fs, io};

/// Who may read and write a new file until it has the mode of the current one: its owner alone.
const OWN: u32 = 0o600;

/// The memory that work on a games file wants: a block that is read ahead, and one in which additions wait.
#[derive(Drop)]
pub struct Blocks {
    ahead: Ahead,
    waiting: Waiting,
}

impl Blocks {
    /// Room in which nothing is.
    pub fn new(alloc: Global) -> Result<Blocks, AllocError> {
        let ahead = Ahead::new(alloc)?;
        let waiting = Waiting::new(alloc)?;
        Ok(Blocks { ahead, waiting })
    }
}

/// The base that was chosen, with its three files open.
#[derive(Drop)]
pub struct DiskBase {
    places: Places,
    files: Trio<Held>,
    // Opened at the first addition, so that a base that nobody may write is read all the same, and let go at a save.
    adder: Option<File>,
    ahead: Ahead,
    // What was added behind the first addition, and is not in the file yet.
    waiting: Waiting,
    // The new games file, if one was begun.
    fresh: Option<NewGames>,
    // The new files that this run made and that are not in their places yet.
    made: Trio<Option<Stamp>>,
}

impl DiskBase {
    /// The base of these files.
    pub fn new(places: Places, files: Trio<Held>, blocks: Blocks) -> DiskBase {
        DiskBase {
            places,
            files,
            adder: None,
            ahead: blocks.ahead,
            waiting: blocks.waiting,
            fresh: None,
            made: NOTHING_MADE,
        }
    }

    /// Its paths.
    pub fn places(&self) -> &Places {
        &self.places
    }

    /// A part, as far as its header says, or an index as far as it goes.
    pub fn load(&mut self, alloc: Global, part: Part, reach: Reach) -> Result<Vec<u8>, Trouble> {
        let kind = Kind::of_part(part);
        let held = self.files.of_mut(kind);
        let mut bytes = Vec::new(alloc);
        read_part(held, kind, reach, &mut bytes).on(kind.current())?;
        Ok(bytes)
    }

    /// The length of the games file, with what waits.
    pub fn games_len(&mut self) -> Result<u64, Trouble> {
        self.files.games.note().on(Kind::Games.current())?;
        Ok(self.end_of_games())
    }

    // Where the games file ended when it was noted, with what waits behind it.
    fn end_of_games(&self) -> u64 {
        self.files
            .games
            .len()
            .saturating_add(self.waiting.bytes().len() as u64)
    }

    /// Fills `into` from this place of the games file on. A file that ends early is an error.
    ///
    /// What lies in one block is taken from a block that is read at once, so that going through the records of a games
    /// file costs one call of the system a block. A record that lies elsewhere is read alone. What waits is written before it is read.
    pub fn read_games(
        &mut self,
        system: &HostRuntime,
        offset: u64,
        into: &mut [u8],
    ) -> Result<(), Trouble> {
        if self.ahead.gives(offset, into) {
            return Ok(());
        }
        if offset.saturating_add(into.len() as u64) > self.files.games.len() {
            self.write_waiting(system)?;
        }
        let games = &mut self.files.games.file;
        if self.ahead.is_near(offset) {
            self.ahead.read(games, offset).on(Kind::Games.current())?;
            if self.ahead.gives(offset, into) {
                return Ok(());
            }
        } else {
            self.ahead.turn_to(offset);
        }
        read_at(games, offset, into).on(Kind::Games.current())
    }

    /// Adds `pad` zero bytes and then `bytes` at the end of the games file, which has to have `known` bytes: a base that somebody else
    /// changed is left as it is.
    ///
    /// The first addition since the base was opened or saved is written at once, so that other runs meet it. What is added behind it waits,
    /// up to a block, until it is read, until the base is saved, or until the work on it ends.
    pub fn append_games(
        &mut self,
        system: &HostRuntime,
        known: u64,
        pad: u32,
        bytes: &[u8],
    ) -> Result<(), Trouble> {
        if self.end_of_games() != known {
            return Err(Trouble::new(Kind::Games.current(), Why::Changed));
        }
        if self.adder.is_some() && self.waiting.takes(pad, bytes) {
            return Ok(());
        }
        self.claim(system)?;
        let outcome = self.append_claimed(system, pad, bytes);
        self.release();
        outcome
    }

    // Adds behind what waits, which is written first.
    fn append_claimed(
        &mut self,
        system: &HostRuntime,
        pad: u32,
        bytes: &[u8],
    ) -> Result<(), Trouble> {
        self.put_waiting(system)?;
        if self.adder.is_some() && self.waiting.takes(pad, bytes) {
            return Ok(());
        }
        self.open_adder(system)?;
        self.add(pad, bytes)
    }

    /// Writes what waits at the end of the games file. A base that somebody else changed is left as it is.
    pub fn write_waiting(&mut self, system: &HostRuntime) -> Result<(), Trouble> {
        if self.waiting.bytes().is_empty() {
            return Ok(());
        }
        self.claim(system)?;
        let outcome = self.put_waiting(system);
        self.release();
        outcome
    }

    // Writes what waits, if no other run may change the base meanwhile.
    fn put_waiting(&mut self, system: &HostRuntime) -> Result<(), Trouble> {
        let count = self.waiting.bytes().len();
        if count == 0 {
            return Ok(());
        }
        self.look(system)?;
        if let Some(adder) = &mut self.adder {
            adder
                .write_all(self.waiting.bytes())
                .on(Kind::Games.current())?;
        }
        self.waiting.clear();
        self.note_added(count as u64)
    }

    // Opens the games file for additions, unless it is open already. The base has to be as it was.
    fn open_adder(&mut self, system: &HostRuntime) -> Result<(), Trouble> {
        self.look(system)?;
        if self.adder.is_some() {
            return Ok(());
        }
        // If the names of new files do not fit, this tells before anything is added.
        is_there(system, &self.places, Kind::Index.new())?;
        let spot = Kind::Games.current();
        let path = self.places.path(spot);
        let adder = OpenOptions::new().append(true).open(system, path).on(spot)?;
        if !self.files.games.has(&adder.metadata().on(spot)?) {
            return Err(Trouble::new(spot, Why::Changed));
        }
        self.adder = Some(adder);
        Ok(())
    }

    // Writes at the end of the games file that is held, behind which nothing waits.
    fn add(&mut self, pad: u32, bytes: &[u8]) -> Result<(), Trouble> {
        if let Some(adder) = &mut self.adder {
            write_padded(adder, pad, bytes).on(Kind::Games.current())?;
        }
        self.note_added(pad as u64 + bytes.len() as u64)
    }

    // Notes the games file anew, which is so many bytes longer, and no others.
    fn note_added(&mut self, count: u64) -> Result<(), Trouble> {
        let games = &mut self.files.games;
        let before = games.len();
        games.note().on(Kind::Games.current())?;
        if games.len().checked_sub(before) != Some(count) {
            return Err(Trouble::new(Kind::Games.current(), Why::Changed));
        }
        Ok(())
    }

    /// Makes `bytes` the whole of a part. They are written into a new file beside it, which then takes its place. So
    /// the part is as it was wherever that fails.
    pub fn replace(
        &mut self,
        system: &HostRuntime,
        part: Part,
        bytes: &[u8],
    ) -> Result<(), Trouble> {
        self.claim(system)?;
        let outcome = self.put_part(system, Kind::of_part(part), bytes);
        self.end(system);
        outcome
    }

    // Replaces a part that no other run may change meanwhile.
    fn put_part(&mut self, system: &HostRuntime, kind: Kind, bytes: &[u8]) -> Result<(), Trouble> {
        self.look(system)?;
        self.look_beside(system, &[Kind::Index.new(), Kind::Names.new()])?;
        self.put_waiting(system)?;
        if kind == Kind::Index {
            self.hand_on_added(system)?;
        }
        let mut held = self.make(system, kind, bytes)?;
        self.look(system)?;
        rename(system, &self.places, kind.new(), kind.current()).on(kind.new())?;
        *self.made.of_mut(kind) = None;
        held.note_renamed();
        *self.files.of_mut(kind) = held;
        if kind == Kind::Index {
            self.adder = None;
        }
        Ok(())
    }

    /// Makes a new games file, which is empty, beside the current one. An earlier one is removed.
    pub fn begin_new(&mut self, alloc: Global, system: &HostRuntime) -> Result<(), Trouble> {
        self.end(system);
        self.claim(system)?;
        let outcome = self.begin_claimed(alloc, system);
        if outcome.is_err() {
            self.end(system);
        }
        outcome
    }

    // Makes a new games file. The lock stays until it has its place, or is removed.
    fn begin_claimed(&mut self, alloc: Global, system: &HostRuntime) -> Result<(), Trouble> {
        self.look(system)?;
        self.look_beside_all(system)?;
        let file = self.create(system, Kind::Games)?;
        self.fresh = Some(NewGames::new(alloc, file).on(Kind::Games.new())?);
        Ok(())
    }

    /// Adds `pad` zero bytes and then `bytes` at the end of the new games file. After a fault there is no new games file.
    pub fn append_new(&mut self, pad: u32, bytes: &[u8]) -> Result<(), Trouble> {
        let spot = Kind::Games.new();
        let Some(fresh) = &mut self.fresh else {
            return Err(io::Error::from(ErrorKind::NotFound)).on(spot);
        };
        let outcome = fresh.add(pad, bytes).on(spot);
        if outcome.is_err() {
            self.fresh = None;
        }
        outcome
    }

    /// Puts new files in the place of the current three: the new games file, to which `added` bytes were added, and
    /// those of the two parts. Each of the three is as it was wherever that fails. There is no new games file
    /// afterwards.
    pub fn commit_new(
        &mut self,
        system: &HostRuntime,
        added: u64,
        names: &[u8],
        index: &[u8],
    ) -> Result<(), Trouble> {
        self.claim(system)?;
        let outcome = self.put_new(system, added, names, index);
        self.end(system);
        outcome
    }

    // Puts three new files in the place of the current ones, which no other run may change meanwhile.
    fn put_new(
        &mut self,
        system: &HostRuntime,
        added: u64,
        names: &[u8],
        index: &[u8],
    ) -> Result<(), Trouble> {
        self.look(system)?;
        self.look_beside_all(system)?;
        let mut files = Trio {
            games: self.finish(system, added)?,
            names: self.make(system, Kind::Names, names)?,
            index: self.make(system, Kind::Index, index)?,
        };
        // Nobody else has opened it yet; who does waits until the old files are gone.
        claim(system, &self.places, Kind::Games.new(), &files.games.file)?;
        self.look(system)?;
        if let Err((trouble, undone)) = put_all(system, &self.places) {
            if undone == Undone::NotAll {
                // What was set aside is put back by who is told to.
                self.made = NOTHING_MADE;
            }
            note_renamed(&mut self.files);
            return Err(trouble);
        }
        self.made = NOTHING_MADE;
        for kind in Kind::ALL {
            let old = self.files.of(kind).stamp();
            remove_if_same(system, self.places.path(kind.old()), old);
        }
        note_renamed(&mut files);
        self.files = files;
        self.adder = None;
        self.waiting.clear();
        self.ahead.forget();
        Ok(())
    }

    // The new games file, handed on to the disk. One that has not `added` bytes was changed by somebody else, and is an error.
    fn finish(&mut self, system: &HostRuntime, added: u64) -> Result<Held, Trouble> {
        let spot = Kind::Games.new();
        let Some(fresh) = self.fresh.take() else {
            return Err(io::Error::from(ErrorKind::NotFound)).on(spot);
        };
        let file = fresh.finish().on(spot)?;
        self.like_current(system, Kind::Games, &file).on(spot)?;
        file.sync_all().on(spot)?;
        let held = self.hold_new(system, Kind::Games, file)?;
        if held.len() != added {
            return Err(Trouble::new(spot, Why::Disturbed));
        }
        Ok(held)
    }

    // Holds a new file, which has to have its name still.
    fn hold_new(&self, system: &HostRuntime, kind: Kind, file: File) -> Result<Held, Trouble> {
        let spot = kind.new();
        let held = Held::new(file).on(spot)?;
        if has_name(system, self.places.path(spot), &held).on(spot)? {
            Ok(held)
        } else {
            Err(Trouble::new(spot, Why::Disturbed))
        }
    }

    /// Removes the new files that were made and are not in their places, and lets other runs change the base.
    pub fn end(&mut self, system: &HostRuntime) {
        // What it still holds is written as it is dropped, so it goes first.
        self.fresh = None;
        for kind in Kind::ALL {
            if let Some(made) = self.made.of(kind) {
                remove_if_same(system, self.places.path(kind.new()), made);
            }
        }
        self.made = NOTHING_MADE;
        self.release();
    }

    /// Removes the three files of a new base, if nothing was put in their places.
    pub fn take_away(&mut self, system: &HostRuntime) {
        self.end(system);
        if Kind::ALL.iter().all(|kind| self.files.of(*kind).len() == 0) {
            for kind in Kind::ALL {
                remove_made(system, &self.places, kind, self.files.of(kind));
            }
        }
    }

    // Keeps other runs from changing the base meanwhile.
    fn claim(&self, system: &HostRuntime) -> Result<(), Trouble> {
        claim(
            system,
            &self.places,
            Kind::Games.current(),
            &self.files.games.file,
        )
    }

    // Lets other runs change the base, unless a new games file is being made.
    fn release(&self) {
        if self.made.games.is_none() {
            let _ = self.files.games.file.unlock();
        }
    }

    // Makes a new file of these bytes beside the current one, with its mode, and hands it on to the disk.
    fn make(&mut self, system: &HostRuntime, kind: Kind, bytes: &[u8]) -> Result<Held, Trouble> {
        let spot = kind.new();
        let mut file = self.create(system, kind)?;
        file.write_all(bytes).on(spot)?;
        self.like_current(system, kind, &file).on(spot)?;
        file.sync_all().on(spot)?;
        self.hold_new(system, kind, file)
    }

    // Makes an empty new file. What has its name already stays as it is.
    fn create(&mut self, system: &HostRuntime, kind: Kind) -> Result<File, Trouble> {
        let spot = kind.new();
        let mut how = OpenOptions::new();
        how.read(true).write(true).create_new(true).mode(OWN);
        match how.open(system, self.places.path(spot)) {
            Ok(file) => {
                let made = Stamp::of(&file.metadata().on(spot)?);
                *self.made.of_mut(kind) = Some(made);
                Ok(file)
            }
            Err(error) if error.kind() == ErrorKind::AlreadyExists => {
                Err(Trouble::new(spot, Why::InTheWay))
            }
            Err(error) => Err(error).on(spot),
        }
    }

    // Gives a new file the owner, the group and the mode of the current one. If the new file has narrower rights, a
    // message tells it.
    fn like_current(&self, system: &HostRuntime, kind: Kind, file: &File) -> io::Result<()> {
        if give_rights(file, &self.files.of(kind).file)? == Rights::Narrower {
            say_narrower(system, &self.places, kind.current());
        }
        Ok(())
    }

    // Hands the records that were added on to the disk, and the folder of the games file unless it is that of the
    // index.
    fn hand_on_added(&self, system: &HostRuntime) -> Result<(), Trouble> {
        if let Some(adder) = &self.adder {
            adder.sync_all().on(Kind::Games.current())?;
        }
        if self.places.folder(Kind::Games) != self.places.folder(Kind::Index) {
            hand_on_folder(system, &self.places, Kind::Games);
        }
        Ok(())
    }

    // Looks whether the three files are those that were loaded.
    fn look(&self, system: &HostRuntime) -> Result<(), Trouble> {
        for kind in Kind::ALL {
            look_at(system, &self.places, &self.files, kind)?;
        }
        Ok(())
    }

    // Looks whether all names are free that a compaction takes, but that of the new games file.
    fn look_beside_all(&self, system: &HostRuntime) -> Result<(), Trouble> {
        self.look_beside(system, &[Kind::Index.new(), Kind::Names.new()])?;
        self.look_beside(
            system,
            &[Kind::Index.old(), Kind::Names.old(), Kind::Games.old()],
        )
    }

    // Looks whether these names are free.
    fn look_beside(&self, system: &HostRuntime, spots: &[Spot]) -> Result<(), Trouble> {
        for spot in spots {
            if is_there(system, &self.places, *spot)? {
                return Err(Trouble::new(*spot, Why::InTheWay));
            }
        }
        Ok(())
    }
}

const NOTHING_MADE: Trio<Option<Stamp>> = Trio {
    index: None,
    names: None,
    games: None,
};

// Notes when files changed that got other names.
fn note_renamed(files: &mut Trio<Held>) {
    for kind in Kind::ALL {
        files.of_mut(kind).note_renamed();
    }
}

// Fills `into` from this place of the file on.
fn read_at(file: &mut File, offset: u64, into: &mut [u8]) -> io::Result<()> {
    file.seek(SeekFrom::Start(offset))?;
    file.read_exact(into)
}
