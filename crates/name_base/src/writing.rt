//! Writing a names file.
ghost use Rattle.std.specs.Prelude.{◌≡◌, ◌≤◌, ◌<◌, ◌^◌, ◌++◌, ◌∷◌, [], ℕ, List, nat_eq, None, length, map, IfOk, OnOk};
ghost use Rattle.std.specs.Ordering.{nat_cmp};
ghost use Rattle.std.specs.List.{common_prefix_len, AllByRecursion, All};
ghost use Rattle.std.specs.List.Sorted.{IsSortedByKey};
ghost use Rattle.std.specs.Cmp.Lexicographic.{slice_cmp};
ghost use Rattle.std.specs.Option.{option_copied};
ghost use Rattle.byteorder.specs.Endian.{big_bytes};
ghost use Rattle.name_base.specs.NameLists.{AreNames, AreSound};
ghost use Rattle.name_base.specs.NamesFile.{AreSmall, id_width, frequency_width, stored_bytes, four_bytes, header_bytes, player_shape, event_shape, site_shape, round_shape};
ghost use Rattle.name_base.specs.NamesText.{Row as Listed, rows_from, IsOrderOf, stored_row, greatest_of, AreFrequencies, header_of, rows_bytes, name_bytes, FitsShape, IsNamesText};

use crate::header::{Header, MAGIC, PerKind, Shape};
use crate::kind_reader::{frequency_width, id_width};
use crate::name_set::NameSet;
use crate::{NameKind, Names};
use byteorder::{BigEndian, ByteOrder};
use std::alloc::{AllocError, Global};

/// A name with its id and how often the base uses it. Rows are in the order of the names' bytes.
#[derive(Clone, Copy, Debug, Drop, PartialEq, Eq, PartialOrd, Ord)]
struct Row<'a> {
    name: &'a [u8],
    id: u32,
    frequency: u32,
}

/// The length of the longest common prefix.
fn shared_prefix(before: &[u8], name: &[u8]) -> usize
    ensures shared { result ≡ common_prefix_len nat_eq before.now name.now }
    ensures within { result ≤ length name.now }
{
    let mut len = 0;
    while len < before.len() && len < name.len() && before[len] == name[len] {
        len += 1;
    }
    len
}

/// The greatest of some numbers, or 0.
fn greatest_of(numbers: &[u32]) -> u32
    ensures greatest { result ≡ greatest_of numbers.now }
{
    let mut greatest = 0;
    for number in numbers {
        greatest = greatest.max(*number);
    }
    greatest
}

/// Appends a number in so many bytes.
fn put_number(out: &mut Vec<u8>, width: usize, number: u32) -> Result<(), AllocError>
    requires some { 1 ≤ width }
    requires few { width ≤ 3 }
    requires fits { number < 256 ^ width }
    ensures { OnOk result (out.new.items ≡ out.old.items ++ big_bytes width number) }
{
    let mut bytes = [0; 3];
    BigEndian::write_uint(&mut bytes, u64::from(number), width);
    out.extend_from_slice(&bytes[..width])
}

/// The names of a kind with their frequencies, by id.
fn rows_by_id<'a>(
    alloc: Global,
    names: &'a NameSet,
    frequencies: &[u32],
) -> Result<Vec<Row<'a>>, AllocError>
    requires { length frequencies.now ≡ length names.now }
    ensures { IfOk result (λ rows. map (λ r. record { id = r.id; frequency = r.frequency; name = r.name.now }) rows.items
        ≡ rows_from 0 names.now frequencies.now) }
{
    let mut rows = Vec::with_capacity(alloc, frequencies.len())?;
    for id in 0..names.len() {
        rows.push(Row {
            name: names.name_of(id),
            id,
            frequency: frequencies[id as usize],
        })?;
    }
    Ok(rows)
}

/// The names of a kind with their frequencies, in the order of their bytes.
fn rows_in_order<'a>(
    alloc: Global,
    names: &'a NameSet,
    frequencies: &[u32],
) -> Result<Vec<Row<'a>>, AllocError>
    requires { length frequencies.now ≡ length names.now }
    ensures { IfOk result (λ rows. IsOrderOf names.now frequencies.now
        (map (λ r. record { id = r.id; frequency = r.frequency; name = r.name.now }) rows.items)) }
{
    let mut rows = rows_by_id(alloc, names, frequencies)?;
    rows.sort()?;
    Ok(rows)
}

/// Appends the length of a name, the length of the prefix that it shares with the name before it, and the bytes after that.
fn put_name(out: &mut Vec<u8>, before: Option<&[u8]>, name: &[u8]) -> Result<(), AllocError>
    requires { length name.now ≤ 255 }
    ensures { OnOk result ((rest : List ℕ) → out.new.items ++ rest
        ≡ out.old.items ++ name_bytes (option_copied before.entry) name.now rest) }
{
    out.push(name.len() as u8)?;
    match before {
        None => out.extend_from_slice(name)?,
        Some(before) => {
            let shared = shared_prefix(before, name);
            out.push(shared as u8)?;
            out.extend_from_slice(&name[shared..])?;
        }
    }
    Ok(())
}

/// Appends a name as it is stored after another.
fn put_row(
    out: &mut Vec<u8>,
    shape: Shape,
    before: Option<&[u8]>,
    row: &Row,
) -> Result<(), AllocError>
    requires row { FitsShape shape (record { id = row.now.id; frequency = row.now.frequency; name = row.now.name.now }) }
    requires count { shape.count ≤ 1048576 }
    requires greatest { shape.greatest < 2 ^ 24 }
    ensures { OnOk result ((rest : List ℕ) → out.new.items ++ rest ≡ out.old.items ++ stored_bytes shape (option_copied before.entry)
        (stored_row (frequency_width shape.greatest) (option_copied before.entry) (record { id = row.now.id; frequency = row.now.frequency; name = row.now.name.now })) rest) }
{
    put_number(out, id_width(shape.count), row.id)?;
    put_number(out, frequency_width(shape.greatest), row.frequency)?;
    put_name(out, before, row.name)
}

/// Appends the names of a kind.
fn put_rows(out: &mut Vec<u8>, shape: Shape, rows: &[Row]) -> Result<(), AllocError>
    requires rows { All (λ r. FitsShape shape (record { id = r.id; frequency = r.frequency; name = r.name.now })) rows.now }
    requires count { shape.count ≤ 1048576 }
    requires greatest { shape.greatest < 2 ^ 24 }
    ensures { OnOk result ((rest : List ℕ) → out.new.items ++ rest
        ≡ out.old.items ++ rows_bytes shape (map (λ r. record { id = r.id; frequency = r.frequency; name = r.name.now }) rows.now) rest) }
{
    let mut before: Option<&[u8]> = None;
    for row in rows {
        put_row(out, shape, before, row)?;
        before = Some(row.name);
    }
    Ok(())
}

/// Appends a number for each kind.
fn put_four(out: &mut Vec<u8>, numbers: &PerKind) -> Result<(), AllocError>
    requires { AreSmall numbers.now }
    ensures { OnOk result ((rest : List ℕ) → out.new.items ++ rest ≡ out.old.items ++ four_bytes numbers.now rest) }
{
    put_number(out, 3, numbers.players)?;
    put_number(out, 3, numbers.events)?;
    put_number(out, 3, numbers.sites)?;
    put_number(out, 3, numbers.rounds)
}

/// Appends the header, with a time stamp of zeros.
fn put_header(out: &mut Vec<u8>, header: &Header) -> Result<(), AllocError>
    requires counts { AreSmall header.now.counts }
    requires greatest { AreSmall header.now.greatest }
    ensures { OnOk result ((rest : List ℕ) → out.new.items ++ rest
        ≡ out.old.items ++ header_bytes (0 ∷ 0 ∷ 0 ∷ 0 ∷ []) header.now rest) }
{
    out.extend_from_slice(&MAGIC)?;
    out.extend_from_slice(&[0; 4])?;
    put_four(out, &header.counts)?;
    put_four(out, &header.greatest)
}

/// Appends the names of a kind in the order of their bytes.
fn put_kind(
    alloc: Global,
    out: &mut Vec<u8>,
    shape: Shape,
    names: &NameSet,
    frequencies: &[u32],
) -> Result<(), AllocError>
    requires names { AreNames 1048576 names.now }
    requires frequencies { AreFrequencies names.now frequencies.now }
    requires shape { shape ≡ record { count = length names.now; greatest = greatest_of frequencies.now } }
    ensures { OnOk result ((rows : List Listed) × IsOrderOf names.now frequencies.now rows
        × ((rest : List ℕ) → out.new.items ++ rest ≡ out.old.items ++ rows_bytes shape rows rest)) }
{
    let rows = rows_in_order(alloc, names, frequencies)?;
    put_rows(out, shape, rows.as_slice())
}

/// The header of the file of these names.
fn header_of(
    names: &Names,
    players: &[u32],
    events: &[u32],
    sites: &[u32],
    rounds: &[u32],
) -> Header
    requires players { AreFrequencies names.now.players players.now }
    requires events { AreFrequencies names.now.events events.now }
    requires sites { AreFrequencies names.now.sites sites.now }
    requires rounds { AreFrequencies names.now.rounds rounds.now }
    ensures header { result ≡ header_of names.now
        (record { players = players.now; events = events.now; sites = sites.now; rounds = rounds.now }) }
    ensures counts { AreSmall result.counts }
    ensures greatest { AreSmall result.greatest }
    ensures sound { AreSound names.now }
{
    Header {
        counts: PerKind {
            players: names.count(NameKind::Player),
            events: names.count(NameKind::Event),
            sites: names.count(NameKind::Site),
            rounds: names.count(NameKind::Round),
        },
        greatest: PerKind {
            players: greatest_of(players),
            events: greatest_of(events),
            sites: greatest_of(sites),
            rounds: greatest_of(rounds),
        },
    }
}

/// The names file of these names.
///
/// The lists are the frequencies of the names of each kind by id. The time stamp is 0, the names of each kind stand in the order of their
/// bytes, and each has the longest prefix that it shares with the one before it.
///
/// # Errors
///
/// Want of memory.
pub fn write_names(
    alloc: Global,
    names: &Names,
    players: &[u32],
    events: &[u32],
    sites: &[u32],
    rounds: &[u32],
) -> Result<Vec<u8>, AllocError>
    requires players { AreFrequencies names.now.players players.now }
    requires events { AreFrequencies names.now.events events.now }
    requires sites { AreFrequencies names.now.sites sites.now }
    requires rounds { AreFrequencies names.now.rounds rounds.now }
    ensures written { IfOk result (λ text. IsNamesText names.now
        (record { players = players.now; events = events.now; sites = sites.now; rounds = rounds.now }) text.items) }
{
    let header = header_of(names, players, events, sites, rounds);
    let mut out = Vec::new(alloc);
    put_header(&mut out, &header)?;
    put_kind(
        alloc,
        &mut out,
        header.player_shape(),
        names.set(NameKind::Player),
        players,
    )?;
    put_kind(
        alloc,
        &mut out,
        header.event_shape(),
        names.set(NameKind::Event),
        events,
    )?;
    put_kind(
        alloc,
        &mut out,
        header.site_shape(),
        names.set(NameKind::Site),
        sites,
    )?;
    put_kind(
        alloc,
        &mut out,
        header.round_shape(),
        names.set(NameKind::Round),
        rounds,
    )?;
    Ok(out)
}
