//! The tag pairs of a game.
ghost use Rattle.std.specs.Prelude.{◌≡◌, ◌<◌, ◌≤◌, ◌+◌, [], ◌++◌, flat_map, length, OnOk};
ghost use Rattle.chess_text.specs.Written.{letter_where};
ghost use Rattle.game_tree.specs.Head.{head_of, IsRating, IsBounded};
ghost use Rattle.pgn_write.specs.TagPairs.{escaped_byte, pair, tag_text, tags_of, roster, rating_pairs, eco_pairs, event_date_pairs, letters_set, flags_text, flags_pairs, start_pairs};

use arrayvec::ArrayVec;
use cell_core::Colour;
use chess_text::write_fen;
use game_tree::{Date, Game, HeadRef, Rating, Tag, eco_text, mark_letters, rating_tag};
use itoa::Buffer;
use std::alloc::{AllocError, Global};

/// Adds all tags of a game: the roster, what the head has besides, the start, and the other tags.
pub(crate) fn put_tags(
    alloc: Global,
    out: &mut Vec<u8>,
    head: &HeadRef<'_>,
    tags: &[Tag],
    g: &Game,
) -> Result<(), AllocError>
    requires bounded { IsBounded (head_of head.now tags.now) }
    ensures tags { OnOk result (out.new.items ≡ out.old.items ++ flat_map tag_text (tags_of (head_of head.now tags.now) g.now)) }
{
    put_roster(out, head)?;
    put_rating(out, Colour::White, head.white_rating)?;
    put_rating(out, Colour::Black, head.black_rating)?;
    put_eco(out, head.eco)?;
    put_event_date(out, head.event_date)?;
    put_flags(out, head.deleted, head.marks)?;
    put_start(alloc, out, g)?;
    put_others(out, tags)?;
    Ok(())
}

// Adds the seven tags that every game has.
#[tactic(auto, using(crate::proofs::TagLaws::tag_rules))]
fn put_roster(out: &mut Vec<u8>, head: &HeadRef<'_>) -> Result<(), AllocError>
    ensures tags { OnOk result (out.new.items ≡ out.old.items ++ flat_map tag_text (roster (head_of head.now []))) }
{
    put_tag(out, b"Event", head.event)?;
    put_tag(out, b"Site", head.site)?;
    put_tag(out, b"Date", head.date.text().as_slice())?;
    put_tag(out, b"Round", head.round)?;
    put_tag(out, b"White", head.white)?;
    put_tag(out, b"Black", head.black)?;
    put_tag(out, b"Result", head.result.text())?;
    Ok(())
}

// Adds a side's rating, if there is one.
fn put_rating(out: &mut Vec<u8>, side: Colour, rating: Rating) -> Result<(), AllocError>
    requires bounded { IsRating rating }
    ensures tags { OnOk result (out.new.items ≡ out.old.items ++ flat_map tag_text (rating_pairs side rating)) }
{
    if rating.value == 0 {
        return Ok(());
    }
    let mut digits = Buffer::new();
    put_tag(
        out,
        rating_tag(side, rating.kind),
        digits.format(rating.value).as_bytes(),
    )
}

// Adds the opening code, if there is one.
fn put_eco(out: &mut Vec<u8>, eco: u16) -> Result<(), AllocError>
    requires bounded { eco ≤ 65500 }
    ensures tags { OnOk result (out.new.items ≡ out.old.items ++ flat_map tag_text (eco_pairs eco)) }
{
    if eco == 0 {
        return Ok(());
    }
    put_tag(out, b"ECO", eco_text(eco).as_slice())
}

// Adds the event date, if there is one.
fn put_event_date(out: &mut Vec<u8>, date: Date) -> Result<(), AllocError>
    ensures tags { OnOk result (out.new.items ≡ out.old.items ++ flat_map tag_text (event_date_pairs date)) }
{
    if date.is_unknown() {
        return Ok(());
    }
    put_tag(out, b"EventDate", date.text().as_slice())
}

// Adds the letters of the marks, if there are any.
fn put_flags(out: &mut Vec<u8>, deleted: bool, marks: u32) -> Result<(), AllocError>
    ensures tags { OnOk result (out.new.items ≡ out.old.items ++ flat_map tag_text (flags_pairs (flags_text deleted marks))) }
{
    put_letters(out, flags_text(deleted, marks).as_slice())
}

// Adds these letters of marks, if there are any.
fn put_letters(out: &mut Vec<u8>, letters: &[u8]) -> Result<(), AllocError>
    ensures tags { OnOk result (out.new.items ≡ out.old.items ++ flat_map tag_text (flags_pairs letters.now)) }
{
    match letters {
        [] => Ok(()),
        [_, ..] => {
            put_tag(out, b"ScidFlags", letters)?;
            Ok(())
        }
    }
}

// The letters of the marks that are set, behind D if the game is marked as deleted.
#[tactic(auto, unfolding(crate::specs::TagPairs::flags_text))]
fn flags_text(deleted: bool, marks: u32) -> ArrayVec<u8, 19>
    ensures letters { result.items ≡ flags_text deleted marks }
{
    let mut letters = ArrayVec::new();
    push_where(&mut letters, deleted, b'D');
    push_set(&mut letters, mark_letters(), marks);
    letters
}

// Adds the letters whose bits are set, the first letter's bit being the lowest.
fn push_set(into: &mut ArrayVec<u8, 19>, letters: &[u8], marks: u32)
    requires room { length into.old.items + length letters.now ≤ 19 }
    ensures letters { into.new.items ≡ into.old.items ++ letters_set letters.now marks }
{
    let mut left = marks;
    for letter in letters {
        push_where(into, left % 2 == 1, *letter);
        left /= 2;
    }
}

// Adds a letter if it is set.
fn push_where(into: &mut ArrayVec<u8, 19>, set: bool, letter: u8)
    requires room { length into.old.items < 19 }
    ensures letter { into.new.items ≡ into.old.items ++ letter_where set letter }
    ensures short { length into.new.items ≤ length into.old.items + 1 }
{
    if set {
        into.push(letter);
    }
}

// Adds the start as a position, unless it is the initial one.
#[tactic(auto, using(crate::proofs::TagLaws::tag_rules))]
fn put_start(alloc: Global, out: &mut Vec<u8>, g: &Game) -> Result<(), AllocError>
    ensures tags { OnOk result (out.new.items ≡ out.old.items ++ flat_map tag_text (start_pairs g.now)) }
{
    if !g.has_own_start() {
        return Ok(());
    }
    let fen = write_fen(alloc, &g.start)?;
    put_tag(out, b"SetUp", b"1")?;
    put_tag(out, b"FEN", fen.as_bytes())?;
    Ok(())
}

// Adds the other tags.
fn put_others(out: &mut Vec<u8>, tags: &[Tag]) -> Result<(), AllocError>
    ensures tags { OnOk result (out.new.items ≡ out.old.items ++ flat_map tag_text tags.now) }
{
    for tag in tags {
        put_tag(out, tag.name.as_bytes(), tag.value.as_bytes())?;
    }
    Ok(())
}

// Adds a tag on its line.
fn put_tag(out: &mut Vec<u8>, name: &[u8], value: &[u8]) -> Result<(), AllocError>
    ensures tag { OnOk result (out.new.items ≡ out.old.items ++ tag_text (pair name.now value.now)) }
{
    out.push(b'[')?;
    out.extend_from_slice(name)?;
    out.extend_from_slice(b" \"")?;
    put_escaped(out, value)?;
    out.extend_from_slice(b"\"]\n")?;
    Ok(())
}

// Adds a value with a backslash before each quotation mark and each backslash.
fn put_escaped(out: &mut Vec<u8>, value: &[u8]) -> Result<(), AllocError>
    ensures value { OnOk result (out.new.items ≡ out.old.items ++ flat_map escaped_byte value.now) }
{
    for byte in value {
        put_escaped_byte(out, *byte)?;
    }
    Ok(())
}

// Adds a byte of a value.
fn put_escaped_byte(out: &mut Vec<u8>, byte: u8) -> Result<(), AllocError>
    ensures value { OnOk result (out.new.items ≡ out.old.items ++ escaped_byte byte) }
{
    if byte == b'"' || byte == b'\\' {
        out.push(b'\\')?;
    }
    out.push(byte)?;
    Ok(())
}
