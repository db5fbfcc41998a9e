//! What is saved of a record that has a fault.
ghost use Rattle.std.specs.Prelude.{◌≡◌, ◌≤◌, ◌-◌, ◌++◌, ◌∷◌, [], None, Some, Err, take, drop, length, IfOk, IfSome, MatchOption};
ghost use Rattle.index_entry.specs.Entry.{IsEntry};
ghost use Rattle.mend_base.specs.Finding.{IsSaved, IsTakeable};
ghost use Rattle.mend_base.specs.Fronts.{comment_mark, cut_line, cut_moves, cut_texts, first_texts, left_at, left_by, left_of, missing_close, missing_end, saved_in, saying, steps_of, with_its_texts, with_saying};
ghost use Rattle.mend_base.specs.Marks.{IsCounted};

use crate::marks::{Due, Spot, TextsLeft};
use base_core::mended_entry;
use game_codec::RecordFault;
use index_entry::Entry;
use std::alloc::{AllocError, Global};

/// What becomes of a game whose record has a fault.
#[derive(Clone, Copy, Debug, Drop, PartialEq, Eq)]
pub enum Faulty {
    /// It does not come over.
    LeftOut,
    /// It comes over without what follows the first fault of each of its lines.
    Fronts,
}

impl Faulty {
    // How many faults are taken out of a record.
    fn steps(self) -> u32
        ensures steps { result ≡ steps_of self }
    {
        match self {
            Faulty::LeftOut => 0,
            Faulty::Fronts => 256,
        }
    }
}

/// The bytes of the longest record.
const LONGEST: usize = 131_071;

/// What the comment says that ends a line before its fault.
const SAYING: &[u8] = b"scid_mend: the rest of this line is left out, since it has a fault";

/// What is saved of a record: bytes without a fault, and the entry with what they say.
#[derive(Drop)]
pub(crate) struct SavedRecord {
    pub(crate) bytes: Vec<u8>,
    pub(crate) kept: Entry,
}

/// What is saved of the record of this entry, whose first fault this is: fault by fault is taken out of it until it has none.
pub(crate) fn save(
    alloc: Global,
    faulty: Faulty,
    entry: &Entry,
    bytes: &[u8],
    fault: RecordFault,
) -> Result<Option<SavedRecord>, AllocError>
    requires fields { IsEntry entry.now }
    ensures saved { IfOk result (λ found. MatchOption found (saved_in (steps_of faulty) bytes.now (Err fault) ≡ None)
        (λ saved. IsSaved (steps_of faulty) entry.now bytes.now fault saved.bytes.items saved.kept)) }
    ensures takeable { IfOk result (λ found. IfSome found (λ saved. IsTakeable saved.kept)) }
    ensures len { IfOk result (λ found. IfSome found (λ saved. saved.kept.len ≡ length saved.bytes.items)) }
    ensures short { IfOk result (λ found. IfSome found (λ saved. length saved.bytes.items ≤ 131071)) }
{
    let mut rest = Vec::from_slice(alloc, bytes)?;
    let mut first = fault;
    let most = faulty.steps();
    for _step in 0..most {
        let Some(left) = left_of(alloc, rest.as_slice(), first.place)? else {
            return Ok(None);
        };
        let bytes = left.as_slice();
        let over = entry_over(entry, bytes);
        match mended_entry(&over, bytes) {
            Ok(kept) => return Ok(Some(SavedRecord { bytes: left, kept })),
            Err(next) => {
                rest = left;
                first = next;
            }
        }
    }
    Ok(None)
}

// The entry with these bytes alone as the file that has its record.
fn entry_over(entry: &Entry, bytes: &[u8]) -> Entry
    requires fields { IsEntry entry.now }
    requires short { length bytes.now ≤ 131071 }
    ensures over { result ≡ record entry.now { offset = 0; len = length bytes.now } }
    ensures fields { IsEntry result }
{
    Entry {
        offset: 0,
        len: bytes.len() as u32,
        ..*entry
    }
}

// What is left of a record without its first fault, which stands at this place.
fn left_of(alloc: Global, bytes: &[u8], place: u32) -> Result<Option<Vec<u8>>, AllocError>
    ensures left { IfOk result (λ found. MatchOption found (left_of bytes.now place ≡ None) (λ left. left_of bytes.now place ≡ Some left.items)) }
    ensures short { IfOk result (λ found. IfSome found (λ left. length left.items ≤ 131071)) }
{
    let before = front(bytes, place as usize);
    let at = Spot::behind(Spot::behind(0, before).depth, before);
    left_by(alloc, at, bytes)
}

// The same, if it is a record's length at most. The fault stands at this spot.
#[tactic(auto, using(crate::proofs::FrontLaws::none_left, crate::proofs::FrontLaws::long_left, crate::proofs::FrontLaws::short_left))]
fn left_by(alloc: Global, at: Spot, bytes: &[u8]) -> Result<Option<Vec<u8>>, AllocError>
    requires counted { IsCounted at }
    requires within { at.passed ≤ length bytes.now }
    ensures left { IfOk result (λ found. MatchOption found (left_by at bytes.now ≡ None) (λ left. left_by at bytes.now ≡ Some left.items)) }
    ensures short { IfOk result (λ found. IfSome found (λ left. length left.items ≤ 131071)) }
{
    let Some(left) = left_at(alloc, at, bytes)? else {
        return Ok(None);
    };
    if LONGEST < left.len() {
        return Ok(None);
    }
    Ok(Some(left))
}

// The same, however long it is.
fn left_at(alloc: Global, at: Spot, bytes: &[u8]) -> Result<Option<Vec<u8>>, AllocError>
    requires counted { IsCounted at }
    requires within { at.passed ≤ length bytes.now }
    ensures left { IfOk result (λ found. MatchOption found (left_at at.due at bytes.now ≡ None) (λ left. left_at at.due at bytes.now ≡ Some left.items)) }
{
    match at.due {
        Due::Item => Ok(Some(cut_line(alloc, at.passed, at, bytes)?)),
        Due::Number => Ok(Some(cut_line(alloc, at.passed.saturating_sub(1), at, bytes)?)),
        Due::Text => Ok(Some(with_its_texts(alloc, at, bytes)?)),
        _ => Ok(None),
    }
}

// The record whose line ends at a spot, before the byte `kept`.
fn cut_line(alloc: Global, kept: usize, at: Spot, bytes: &[u8]) -> Result<Vec<u8>, AllocError>
    requires counted { IsCounted at }
    requires within { at.passed ≤ length bytes.now }
    ensures cut { IfOk result (λ left. left.items ≡ cut_line kept at bytes.now) }
{
    let end = at.line_end(at.depth, behind(bytes, at.passed));
    let whole = Spot::behind(at.depth, bytes);
    let mut left = cut_moves(alloc, kept, at, end.passed, whole, bytes)?;
    let said = cut_texts(alloc, at, end.comments, behind(bytes, whole.passed))?;
    left.extend_from_slice(said.as_slice())?;
    Ok(left)
}

// What is left of the record before its texts, where its line goes on to this end.
fn cut_moves(
    alloc: Global,
    kept: usize,
    at: Spot,
    end: usize,
    whole: Spot,
    bytes: &[u8],
) -> Result<Vec<u8>, AllocError>
    ensures cut { IfOk result (λ left. left.items ≡ cut_moves kept at end whole bytes.now) }
{
    let rest = behind(bytes, end);
    let mut left = Vec::from_slice(alloc, front(bytes, kept))?;
    left.extend_from_slice(comment_mark(at.own))?;
    left.extend_from_slice(missing_close(at.depth, rest))?;
    left.extend_from_slice(front(rest, whole.passed.saturating_sub(end)))?;
    left.extend_from_slice(missing_end(whole.due))?;
    Ok(left)
}

// What is left of the texts, of which so many are passed at the end of the line.
fn cut_texts(alloc: Global, at: Spot, passed: usize, texts: &[u8]) -> Result<Vec<u8>, AllocError>
    ensures cut { IfOk result (λ left. left.items ≡ cut_texts at passed texts.now) }
{
    let first = first_texts(alloc, at.comments, texts)?;
    let mut left = with_saying(alloc, at.own, first.as_slice())?;
    left.extend_from_slice(behind(texts, TextsLeft::behind(passed, texts).used))?;
    Ok(left)
}

// So many texts, an empty one for each that is missing.
fn first_texts(alloc: Global, count: usize, bytes: &[u8]) -> Result<Vec<u8>, AllocError>
    ensures first { IfOk result (λ texts. texts.items ≡ first_texts count bytes.now) }
{
    let left = TextsLeft::behind(count, bytes);
    let missing = vec![in alloc; 0u8; left.due]?;
    let mut texts = Vec::from_slice(alloc, front(bytes, left.used))?;
    texts.extend_from_slice(missing.as_slice())?;
    Ok(texts)
}

// The texts with what the comment says: behind them, or at the end of the text of this number.
fn with_saying(alloc: Global, own: usize, texts: &[u8]) -> Result<Vec<u8>, AllocError>
    ensures said { IfOk result (λ said. said.items ≡ with_saying own texts.now) }
{
    if own == 0 {
        return with_saying_behind(alloc, texts);
    }
    let end = TextsLeft::behind(own, texts).used.saturating_sub(1);
    let mut said = Vec::from_slice(alloc, front(texts, end))?;
    said.push(b' ')?;
    said.extend_from_slice(SAYING)?;
    said.extend_from_slice(behind(texts, end))?;
    Ok(said)
}

// The texts with one more, which is what the comment says.
fn with_saying_behind(alloc: Global, texts: &[u8]) -> Result<Vec<u8>, AllocError>
    ensures said { IfOk result (λ said. said.items ≡ (texts.now ++ saying) ++ 0 ∷ []) }
{
    let mut said = Vec::from_slice(alloc, texts)?;
    said.extend_from_slice(SAYING)?;
    said.push(0)?;
    Ok(said)
}

// The mark of the comment, unless one stands there.
fn comment_mark(own: usize) -> &'static [u8]
    ensures mark { result.now ≡ comment_mark own }
{
    if own == 0 { &[12] } else { &[] }
}

// The end of a variation of this depth, unless these bytes begin with it.
fn missing_close(line: usize, bytes: &[u8]) -> &'static [u8]
    ensures mark { result.now ≡ missing_close line bytes.now }
{
    if line == 0 || bytes.first() == Some(&14) {
        &[]
    } else {
        &[14]
    }
}

// The end of the game, where there was none.
fn missing_end(due: Due) -> &'static [u8]
    ensures mark { result.now ≡ missing_end due }
{
    match due {
        Due::Text => &[],
        _ => &[15],
    }
}

// The record whose moves are whole, with as many texts as they have comments.
fn with_its_texts(alloc: Global, at: Spot, bytes: &[u8]) -> Result<Vec<u8>, AllocError>
    ensures whole { IfOk result (λ left. left.items ≡ with_its_texts at bytes.now) }
{
    let texts = first_texts(alloc, at.comments, behind(bytes, at.passed))?;
    let mut left = Vec::from_slice(alloc, front(bytes, at.passed))?;
    left.extend_from_slice(texts.as_slice())?;
    Ok(left)
}

// The first bytes, so many or as many as there are.
fn front(bytes: &[u8], count: usize) -> &[u8]
    ensures front { result.now ≡ take count bytes.now }
    ensures within { length result.now ≤ length bytes.now }
{
    bytes.split_at(count.min(bytes.len())).0
}

// The bytes behind so many.
fn behind(bytes: &[u8], count: usize) -> &[u8]
    ensures behind { result.now ≡ drop count bytes.now }
    ensures len { length result.now ≡ length bytes.now - count }
{
    bytes.split_at(count.min(bytes.len())).1
}
