//! The way that leads to a page.
use crate::numbers::push_number;
use crate::site::Site;
use arrayvec::ArrayVec;
use cell_core::Colour;
use chess_text::play_san;
use std::alloc::{AllocError, Global};

/// A half-move of a way: its text, and the page that it leads to, if the way goes over that.
#[derive(Drop)]
pub(crate) struct Step {
    text: ArrayVec<u8, 8>,
    page: Option<usize>,
}

/// The way that leads to a page: first the moves of the first game that came to the page that no page leads to, and then a move for each
/// page behind it.
pub(crate) fn way_to(alloc: Global, site: &Site<'_>, page: usize) -> Result<Vec<Step>, AllocError> {
    let (first, pages) = pages_to(alloc, site, page)?;
    let mut steps = first_steps(alloc, site, first)?;
    for page in pages.as_slice().iter().rev() {
        steps.push(Step {
            text: short(site.text(*page)),
            page: Some(*page),
        })?;
    }
    Ok(steps)
}

// The page at which the way to a page begins, and from the last on the pages behind it.
fn pages_to(
    alloc: Global,
    site: &Site<'_>,
    page: usize,
) -> Result<(usize, Vec<usize>), AllocError> {
    let mut pages = Vec::new(alloc);
    let mut at = page;
    for _step in 0..site.book().len() {
        let Some(came) = site.order().came(at) else {
            return Ok((at, pages));
        };
        pages.push(at)?;
        at = came;
    }
    Ok((at, pages))
}

/// The moves of the first game that came to a page.
pub(crate) fn first_steps(
    alloc: Global,
    site: &Site<'_>,
    page: usize,
) -> Result<Vec<Step>, AllocError> {
    let mut steps = Vec::new(alloc);
    let Some(way) = site.book().way(page) else {
        return Ok(steps);
    };
    let mut place = way.start;
    let mut left = way.moves.len();
    for mv in way.moves.as_slice() {
        if !place.is_legal(*mv) {
            return Ok(steps);
        }
        left = left.saturating_sub(1);
        let text = play_san(&mut place, mv);
        let page = (left == 0).then_some(page);
        steps.push(Step { text, page })?;
    }
    Ok(steps)
}

/// Adds a way, with a link for each page on it but for the page where it ends.
pub(crate) fn push_way(
    out: &mut Vec<u8>,
    site: &Site<'_>,
    steps: &[Step],
    page: usize,
) -> Result<(), AllocError> {
    let mut ply = ply_of(site.side());
    for step in steps {
        out.extend_from_slice(b" ")?;
        if let Some(number) = number_at(ply, site.side()) {
            out.extend_from_slice(b"<span>")?;
            push_move_number(out, number)?;
            out.extend_from_slice(b"</span> ")?;
        }
        push_step(out, site, step, page)?;
        ply = ply.saturating_add(1);
    }
    Ok(())
}

// Adds a half-move of a way.
fn push_step(
    out: &mut Vec<u8>,
    site: &Site<'_>,
    step: &Step,
    page: usize,
) -> Result<(), AllocError> {
    match step.page {
        Some(to) if to == page => {
            out.extend_from_slice(b"<b>")?;
            out.extend_from_slice(step.text.as_slice())?;
            out.extend_from_slice(b"</b>")
        }
        Some(to) => {
            site.push_page_link(out, to)?;
            out.extend_from_slice(step.text.as_slice())?;
            out.extend_from_slice(b"</a>")
        }
        None => out.extend_from_slice(step.text.as_slice()),
    }
}

/// Adds the text of a way that begins with this side: its moves with their numbers.
pub(crate) fn push_line(out: &mut Vec<u8>, side: Colour, steps: &[Step]) -> Result<(), AllocError> {
    let mut ply = ply_of(side);
    for step in steps {
        if ply > ply_of(side) {
            out.extend_from_slice(b" ")?;
        }
        if let Some(number) = number_at(ply, side) {
            push_move_number(out, number)?;
            out.extend_from_slice(b" ")?;
        }
        out.extend_from_slice(step.text.as_slice())?;
        ply = ply.saturating_add(1);
    }
    Ok(())
}

/// The number of the first half-move: an even one if White makes it.
pub(crate) fn ply_of(side: Colour) -> u32 {
    match side {
        Colour::White => 0,
        Colour::Black => 1,
    }
}

/// What stands before a half-move: the number of a move of White, or that of the first move if Black makes it.
#[derive(Clone, Copy)]
pub(crate) enum MoveNumber {
    White(u32),
    Black(u32),
}

/// The number that stands before a half-move of a line that begins with this side, if one does.
pub(crate) fn number_at(ply: u32, side: Colour) -> Option<MoveNumber> {
    if ply % 2 == 0 {
        return Some(MoveNumber::White(ply / 2 + 1));
    }
    (ply == ply_of(side)).then_some(MoveNumber::Black(ply / 2 + 1))
}

/// Adds a number of a move.
pub(crate) fn push_move_number(out: &mut Vec<u8>, number: MoveNumber) -> Result<(), AllocError> {
    match number {
        MoveNumber::White(number) => {
            push_number(out, u128::from(number))?;
            out.extend_from_slice(b".")
        }
        MoveNumber::Black(number) => {
            push_number(out, u128::from(number))?;
            out.extend_from_slice(b"...")
        }
    }
}

/// The first eight bytes of a text.
pub(crate) fn short(text: &[u8]) -> ArrayVec<u8, 8> {
    let mut word = ArrayVec::new();
    for byte in text {
        if !word.is_full() {
            word.push(*byte);
        }
    }
    word
}
