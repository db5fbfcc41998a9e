//! Reading the names of one kind.
ghost use Rattle.std.specs.Prelude.{ℕ, ◌≡◌, ◌≢◌, ◌≤◌, ◌<◌, ◌++◌, ◌∷◌, [], false, Some, unwrap_or, length, map, take, not, replicate, zip, if◌then◌else◌, IfOk, IfErr, OnOk};
ghost use Rattle.std.specs.Option.{option_copied};
ghost use Rattle.name_base.specs.NameLists.{AreNames, is_in};
ghost use Rattle.name_base.specs.NamesFile.{id_width, frequency_width};
ghost use Rattle.name_base.specs.Reading.{Gives, Answers, blamed, has_id, last_name, names_of, id_at, piece_at, entry_at, entries_at, by_id, kind_at};
ghost use Rattle.name_base.specs.KindRead.{KindRead, AreMet};
ghost use Rattle.name_base.specs.PartNames.{entries_in_part, kind_in_part, known};
ghost use Rattle.std.specs.List.{AllByRecursion};

use crate::field::{byte_at, number_at, own_at, shared_at, skip_at};
use crate::header::Shape;
use crate::name_set::NameSet;
use crate::part_names::PartKind;
use crate::{NameFault, NameKind, NameWhat, NamesError};
use indexmap::IndexSet;
use std::alloc::{AllocError, Global};
use std::marker::Model;

/// A name has at least two bytes of its id, one of its frequency and one of its length.
const LEAST_BYTES: usize = 4;

/// The names of a kind that were read so far, in the order of the file.
#[derive(Drop)]
pub(crate) struct KindReader {
    // Of each id below the kind's count, whether a name with it was read.
    taken: Vec<bool>,
    // The names, and the id of each.
    names: IndexSet<Vec<u8>>,
    ids: Vec<u32>,
}

impl Model for KindReader {
    ghost use Rattle.std.specs.Prelude.{◌≡◌, map, length, zip};
    ghost use Rattle.name_base.specs.KindRead.{KindRead};
    ghost use Rattle.name_base.specs.KindReading.{IsReading};

    ghost Value = { KindRead };

    ghost view = { λ r. record { count = length r.taken.items; entries = map (λ p. record { id = p.1; name = p.0.items }) (zip r.names.keys r.ids.items) } };

    ghost invariant = { λ r. (length r.ids.items ≡ length r.names.keys)
        × IsReading r.taken.items (map (λ p. record { id = p.1; name = p.0.items }) (zip r.names.keys r.ids.items)) };
}

/// The parts of a name, and the bytes after it.
#[derive(Clone, Copy, Drop)]
struct Parts<'a> {
    id: u32,
    shared: usize,
    own: &'a [u8],
    rest: &'a [u8],
}

/// How many bytes an id has.
pub(crate) fn id_width(count: u32) -> usize
    ensures width { result ≡ id_width count }
    ensures some { 1 ≤ result }
    ensures few { result ≤ 3 }
{
    if count < 65_536 { 2 } else { 3 }
}

/// How many bytes a frequency has.
pub(crate) fn frequency_width(greatest: u32) -> usize
    ensures width { result ≡ frequency_width greatest }
    ensures some { 1 ≤ result }
    ensures few { result ≤ 3 }
{
    match greatest {
        0..=255 => 1,
        256..=65_535 => 2,
        _ => 3,
    }
}

/// A text of two parts.
fn joined(alloc: Global, front: &[u8], back: &[u8]) -> Result<Vec<u8>, AllocError>
    ensures { IfOk result (λ text. text.items ≡ front.now ++ back.now) }
{
    let mut text = Vec::with_capacity(alloc, front.len() + back.len())?;
    text.extend_from_slice(front)?;
    text.extend_from_slice(back)?;
    Ok(text)
}

impl KindReader {
    /// No names of a kind that has so many, with room for those that the bytes can hold.
    pub(crate) fn new(alloc: Global, count: u32, bytes: &[u8]) -> Result<Self, AllocError>
        requires { count ≤ 1048576 }
        ensures { IfOk result (λ reader. reader ≡ record { count = count; entries = [] }) }
    {
        let room = (count as usize).min(bytes.len() / LEAST_BYTES);
        Ok(KindReader {
            taken: vec![in alloc; false; count as usize]?,
            names: IndexSet::with_capacity(alloc, room)?,
            ids: Vec::with_capacity(alloc, room)?,
        })
    }

    fn has_id(&self, id: u32) -> bool
        requires { id < self.now.count }
        ensures { result ≡ has_id self.now.entries id }
    {
        self.taken[id as usize]
    }

    fn last_name(&self) -> Option<&[u8]>
        ensures { option_copied result ≡ last_name self.now.entries }
    {
        match self.names.last() {
            None => None,
            Some(name) => Some(name.as_slice()),
        }
    }

    /// The name that a prefix of the last one and own bytes make.
    fn name_of(&self, alloc: Global, shared: usize, own: &[u8]) -> Result<Vec<u8>, AllocError>
        requires { shared ≤ length (unwrap_or (last_name self.now.entries) []) }
        ensures { IfOk result (λ name. name.items ≡ take shared (unwrap_or (last_name self.now.entries) []) ++ own.now) }
    {
        match self.last_name() {
            None => Vec::from_slice(alloc, own),
            Some(before) => joined(alloc, &before[..shared], own),
        }
    }

    /// Adds a name with its id, unless the name is there already, and tells whether it is new.
    fn add(&mut self, id: u32, name: Vec<u8>) -> Result<bool, NamesError>
        requires id { id < self.old.count }
        ensures new { IfOk result (λ new. new ≡ not (is_in (names_of self.old.entries) name.items)) }
        ensures added { IfOk result (λ new. self.new.entries ≡ (if new then self.old.entries ++ record { id = id; name = name.items } ∷ [] else self.old.entries)) }
        ensures count { self.new.count ≡ self.old.count }
        ensures memory { IfErr result (λ e. e ≡ NamesError.Memory) }
    {
        self.ids.reserve(1)?;
        if !self.names.insert(name)? {
            return Ok(false);
        }
        self.ids.push_reserved(id);
        self.taken[id as usize] = true;
        Ok(true)
    }

    /// An id that is below the count and new.
    #[tactic(auto, unfolding(crate::specs::Reading::id_at))]
    fn id_at<'a>(&self, count: u32, bytes: &'a [u8]) -> Result<(u32, &'a [u8]), NameWhat>
        requires { count ≡ self.now.count }
        ensures gives { Gives (λ x. (x.0, x.1.now)) result (id_at count self.now.entries bytes.now) }
        ensures below { IfOk result (λ x. x.0 < count) }
    {
        let (id, rest) = number_at(id_width(count), bytes)?;
        if count <= id {
            return Err(NameWhat::IdRange);
        }
        if self.has_id(id) {
            return Err(NameWhat::IdTwice);
        }
        Ok((id, rest))
    }

    /// The parts of the next name.
    #[tactic(auto, unfolding(crate::specs::Reading::piece_at))]
    fn parts_at<'a>(&self, shape: Shape, bytes: &'a [u8]) -> Result<Parts<'a>, NameWhat>
        requires { shape.count ≡ self.now.count }
        ensures gives { Gives (λ p. record { id = p.id; shared = p.shared; own = p.own.now; rest = p.rest.now }) result
            (piece_at shape self.now.entries bytes.now) }
        ensures below { IfOk result (λ p. p.id < shape.count) }
        ensures shared { IfOk result (λ p. p.shared ≤ length (unwrap_or (last_name self.now.entries) [])) }
    {
        let (id, rest) = self.id_at(shape.count, bytes)?;
        let rest = skip_at(frequency_width(shape.greatest), rest)?;
        let (len, rest) = byte_at(rest)?;
        let (shared, rest) = shared_at(self.last_name(), len, rest)?;
        let (own, rest) = own_at((len - shared) as usize, rest)?;
        Ok(Parts {
            id,
            shared: shared as usize,
            own,
            rest,
        })
    }

    /// The names by id, once all were read.
    fn into_set(self) -> NameSet
        requires met { AreMet self.count self.entries }
        requires all { length self.entries ≡ self.count }
        ensures names { result ≡ by_id self.count self.entries }
        ensures sound { (limit : ℕ) → self.count ≤ limit → AreNames limit result }
    {
        let KindReader {
            mut names,
            mut ids,
            ..
        } = self;
        put_by_id(&mut names, ids.as_mut_slice());
        NameSet::of(names)
    }

    // The names by id as far as they were read.
    fn into_part(self, alloc: Global) -> Result<PartKind, AllocError>
        requires met { AreMet self.count self.entries }
        ensures names { IfOk result (λ part. part ≡ known self.count self.entries) }
    {
        let KindReader { taken, names, ids } = self;
        let names = by_id(alloc, taken.as_slice().len(), names, ids.as_slice())?;
        Ok(PartKind::new(names, taken))
    }

    /// Reads the next name, the one with this index, and gives the bytes after it.
    #[tactic(auto, unfolding(crate::specs::Reading::entry_at))]
    pub(crate) fn read<'a>(
        &mut self,
        alloc: Global,
        kind: NameKind,
        index: u32,
        shape: Shape,
        bytes: &'a [u8],
    ) -> Result<&'a [u8], NamesError>
        requires count { shape.count ≡ self.old.count }
        requires index { index ≡ length self.old.entries }
        ensures gives { Answers (λ rest. (self.new.entries, rest.now)) result
            (blamed (Some kind) index (entry_at shape self.old.entries bytes.now)) }
        ensures count { self.new.count ≡ self.old.count }
        // A faulty name leaves those before it as they are.
        ensures unchanged { IfErr result (λ e. e ≢ NamesError.Memory → self.new.entries ≡ self.old.entries) }
    {
        let parts = match self.parts_at(shape, bytes) {
            Ok(parts) => parts,
            Err(what) => return Err(fault(kind, index, what)),
        };
        let name = self.name_of(alloc, parts.shared, parts.own)?;
        if !self.add(parts.id, name)? {
            return Err(fault(kind, index, NameWhat::Repeated));
        }
        Ok(parts.rest)
    }
}

/// As many names without bytes.
fn empty_names(alloc: Global, count: usize) -> Result<Vec<Vec<u8>>, AllocError>
    ensures { IfOk result (λ names. map (λ v. v.items) names.items ≡ replicate count []) }
{
    let mut names = Vec::with_capacity(alloc, count)?;
    for _ in 0..count {
        names.push(Vec::new(alloc))?;
    }
    Ok(names)
}

/// The names, each at the place of its id.
fn by_id(
    alloc: Global,
    count: usize,
    mut met: IndexSet<Vec<u8>>,
    ids: &[u32],
) -> Result<Vec<Vec<u8>>, AllocError>
    requires long { length met.keys ≤ length ids.now }
    requires below { AllByRecursion (λ p. p.1 < count) (zip met.keys ids.now) }
    ensures { IfOk result (λ names. map (λ v. v.items) names.items
        ≡ by_id count (map (λ p. record { id = p.1; name = p.0.items }) (zip met.keys ids.now))) }
{
    let mut names = empty_names(alloc, count)?;
    while let Some(name) = met.pop() {
        names[ids[met.len()] as usize] = name;
    }
    Ok(names)
}

/// Puts each name at the place of its id, if these are the ids of all names.
fn put_by_id(names: &mut IndexSet<Vec<u8>>, ids: &mut [u32])
    requires long { length ids.old ≡ length names.old.keys }
    requires met { AreMet (length ids.old) (map (λ p. record { id = p.1; name = p.0.items }) (zip names.old.keys ids.old)) }
    ensures { map (λ v. v.items) names.new.keys
        ≡ by_id (length ids.old) (map (λ p. record { id = p.1; name = p.0.items }) (zip names.old.keys ids.old)) }
{
    let mut place = 0;
    while place < ids.len() {
        let id = ids[place] as usize;
        if id == place {
            place += 1;
        } else {
            // The name comes to its place for good, so this happens at most once a name.
            names.swap_indices(place, id);
            ids.swap(place, id);
        }
    }
}

fn fault(kind: NameKind, index: u32, what: NameWhat) -> NamesError
    ensures { result ≡ NamesError.Bad (record { kind = Some kind; index = index; what = what }) }
{
    NamesError::Bad(NameFault {
        kind: Some(kind),
        index,
        what,
    })
}

/// Reads all names of a kind, and gives the bytes after them.
fn read_all<'a>(
    reader: &mut KindReader,
    alloc: Global,
    kind: NameKind,
    shape: Shape,
    bytes: &'a [u8],
) -> Result<&'a [u8], NamesError>
    requires count { shape.count ≡ reader.old.count }
    requires none { reader.old.entries ≡ [] }
    ensures gives { Answers (λ rest. (reader.new.entries, rest.now)) result
        (entries_at kind shape shape.count [] bytes.now) }
    ensures count { reader.new.count ≡ shape.count }
    ensures met { OnOk result (AreMet shape.count reader.new.entries) }
    ensures all { OnOk result (length reader.new.entries ≡ shape.count) }
{
    let mut rest = bytes;
    for index in 0..shape.count {
        rest = reader.read(alloc, kind, index, shape, rest)?;
    }
    Ok(rest)
}

/// Reads the names of a kind, and gives the bytes after them.
#[tactic(auto, unfolding(crate::specs::Reading::kind_at))]
pub(crate) fn read_kind<'a>(
    alloc: Global,
    kind: NameKind,
    shape: Shape,
    bytes: &'a [u8],
) -> Result<(NameSet, &'a [u8]), NamesError>
    requires { shape.count ≤ 1048576 }
    ensures gives { Answers (λ x. (x.0, x.1.now)) result (kind_at kind shape bytes.now) }
    ensures sound { (limit : ℕ) → shape.count ≤ limit → IfOk result (λ x. AreNames limit x.0) }
{
    let mut reader = KindReader::new(alloc, shape.count, bytes)?;
    let rest = read_all(&mut reader, alloc, kind, shape, bytes)?;
    Ok((reader.into_set(), rest))
}

/// Reads the names of a kind up to the first fault, and gives the bytes after them if there is no fault. Without bytes,
/// which is the case behind a fault, it has no names.
pub(crate) fn read_part<'a>(
    alloc: Global,
    kind: NameKind,
    shape: Shape,
    bytes: Option<&'a [u8]>,
) -> Result<(PartKind, Option<&'a [u8]>), AllocError>
    requires { shape.count ≤ 1048576 }
    ensures names { IfOk result (λ x. x.0 ≡ known shape.count (kind_in_part shape (option_copied bytes.entry)).0) }
    ensures rest { IfOk result (λ x. option_copied x.1 ≡ (kind_in_part shape (option_copied bytes.entry)).1) }
{
    let mut reader = KindReader::new(alloc, shape.count, bytes.unwrap_or(&[]))?;
    let rest = read_if_there(&mut reader, alloc, kind, shape, bytes)?;
    Ok((reader.into_part(alloc)?, rest))
}

// Reads the names of a kind up to the first fault, if there are bytes to read.
#[tactic(auto, unfolding(crate::specs::PartNames::kind_in_part))]
fn read_if_there<'a>(
    reader: &mut KindReader,
    alloc: Global,
    kind: NameKind,
    shape: Shape,
    bytes: Option<&'a [u8]>,
) -> Result<Option<&'a [u8]>, AllocError>
    requires count { shape.count ≡ reader.old.count }
    requires none { reader.old.entries ≡ [] }
    ensures names { OnOk result (reader.new.entries ≡ (kind_in_part shape (option_copied bytes.entry)).0) }
    ensures rest { IfOk result (λ rest. option_copied rest ≡ (kind_in_part shape (option_copied bytes.entry)).1) }
    ensures count { reader.new.count ≡ shape.count }
    ensures met { OnOk result (AreMet shape.count reader.new.entries) }
{
    match bytes {
        Some(bytes) => read_as_far(reader, alloc, kind, shape, bytes),
        None => Ok(None),
    }
}

// Reads the names of a kind up to the first fault, and gives the bytes after them if there is no fault.
fn read_as_far<'a>(
    reader: &mut KindReader,
    alloc: Global,
    kind: NameKind,
    shape: Shape,
    bytes: &'a [u8],
) -> Result<Option<&'a [u8]>, AllocError>
    requires count { shape.count ≡ reader.old.count }
    requires none { reader.old.entries ≡ [] }
    ensures names { OnOk result (reader.new.entries ≡ (entries_in_part shape shape.count [] bytes.now).0) }
    ensures rest { IfOk result (λ rest. option_copied rest ≡ (entries_in_part shape shape.count [] bytes.now).1) }
    ensures count { reader.new.count ≡ shape.count }
    ensures met { OnOk result (AreMet shape.count reader.new.entries) }
{
    let mut rest = bytes;
    for index in 0..shape.count {
        match reader.read(alloc, kind, index, shape, rest) {
            Ok(after) => rest = after,
            Err(NamesError::Bad(_)) => return Ok(None),
            Err(NamesError::Memory) => return Err(AllocError),
        }
    }
    Ok(Some(rest))
}
