//! The builder of trees.
ghost use Rattle.std.specs.Prelude.{◌≡◌, ◌↔◌, ◌<◌, [], length, IsTrue, IsSome, IfOk, OnOk, List, ℕ, Option};
ghost use Rattle.game_tree.specs.Item.{Item};
ghost use Rattle.game_tree.specs.Item as item;
ghost use Rattle.game_tree.specs.Movetext.{Movetext, items_of, meaning};
ghost use Rattle.game_tree.specs.Tree.{Line};
ghost use Rattle.game_tree.specs.Legal.{IsComment};
ghost use Rattle.game_tree.specs.Written.{comment_before, movetext_of, HasComments};
ghost use Rattle.game_tree.specs.Building.{opening, MayStand, added, built, read_line, Gives};

use super::node::Branch;
use super::open_line::OpenLine;
use cell_core::{Move, Text};
use std::alloc::{AllocError, Global};
use std::marker::Model;
use std::mem::replace;

/// Makes the tree of a game from its items in the order in which they are written: moves, NAGs, comments,
/// and variations between their brackets (PGN standard, section 8.2). It has a stack of the lines that are open.
///
/// After want of memory the builder is spent: what it holds then is not told.
#[derive(Debug, Drop)]
pub struct Builder {
    current: OpenLine,
    outer: Vec<OpenLine>,
}

impl Model for Builder {
    ghost use Rattle.std.specs.Prelude.{reverse};
    ghost use Rattle.game_tree.specs.Building.{Building, coded_building};

    ghost Value = { Building };

    ghost coded = { coded_building };

    ghost view = { λ b. record { current = b.current; outer = reverse b.outer.items } };
}

impl Builder {
    /// The builder of a game of which nothing was read.
    pub fn new(alloc: Global) -> Builder
        ensures opening { result ≡ opening }
    {
        Builder {
            current: OpenLine::new(alloc),
            outer: Vec::new(alloc),
        }
    }

    /// Whether the innermost line that is open has a move, so that a NAG or a variation may follow.
    pub fn has_move(&self) -> bool
        ensures has { IsTrue result ↔ IsSome self.now.current.last }
    {
        self.current.has_move()
    }

    /// How many variations are open.
    pub fn depth(&self) -> usize
        ensures depth { result ≡ length self.now.outer }
    {
        self.outer.len()
    }

    /// Adds a move to the innermost line.
    pub fn play(&mut self, alloc: Global, mv: Move) -> Result<(), AllocError>
        ensures added { OnOk result (self.new ≡ added (item.move mv) self.old) }
    {
        self.current.play(alloc, mv)
    }

    /// Adds a NAG (numeric annotation glyph) to the last move of the innermost line, which has one (`has_move`).
    pub fn nag(&mut self, _alloc: Global, nag: u8) -> Result<(), AllocError>
        requires may { MayStand (item.nag nag) self.old }
        ensures added { OnOk result (self.new ≡ added (item.nag nag) self.old) }
    {
        self.current.nag(nag)
    }

    /// Adds a comment to the last move of the innermost line, or to the line's beginning if it has no move yet. An
    /// empty text is no comment. Comments at one place are joined with a space.
    pub fn comment(&mut self, _alloc: Global, text: Text) -> Result<(), AllocError>
        ensures added { OnOk result (self.new ≡ added (item.comment text) self.old) }
    {
        self.current.comment(text)
    }

    /// Begins a variation of the last move of the innermost line, which has one (`has_move`).
    pub fn open(&mut self, alloc: Global) -> Result<(), AllocError>
        requires may { MayStand item.opens self.old }
        ensures added { OnOk result (self.new ≡ added item.opens self.old) }
    {
        let round = replace(&mut self.current, OpenLine::new(alloc));
        self.outer.push(round)?;
        Ok(())
    }

    /// Ends the innermost variation, if one is open (`depth`).
    pub fn close(&mut self, _alloc: Global) -> Result<(), AllocError>
        requires may { MayStand item.closes self.old }
        ensures added { OnOk result (self.new ≡ added item.closes self.old) }
    {
        if let Some(round) = self.outer.pop() {
            let inner = replace(&mut self.current, round);
            self.current.vary(inner.finish()?)?;
        }
        Ok(())
    }

    /// The line that was read, with the comment before its first move, if no variation is open. What was read from the
    /// items of a movetext alone is what the movetext means, and what was read from the items of a tree is that tree.
    pub fn finish(self, _alloc: Global) -> Result<Branch, AllocError>
        requires whole { self.outer ≡ [] }
        ensures lead { IfOk result (λ read. read.lead ≡ self.current.lead) }
        ensures line { IfOk result (λ read. read.line ≡ read_line self.current) }
        ensures meant { IfOk result (λ read. (s : Movetext) → self ≡ built (items_of s) opening → Gives read (meaning s).comment (meaning s).line) }
        ensures written { IfOk result (λ read. (lead : Option (List ℕ)) (line : Line) → IsComment lead → HasComments line
            → self ≡ built (items_of (comment_before lead (movetext_of line))) opening → Gives read lead line) }
    {
        let Builder {
            current,
            outer: _outer,
        } = self;
        let read = current.finish()?;
        Ok(read)
    }
}
