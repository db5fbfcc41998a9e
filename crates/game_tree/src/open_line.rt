//! A line while its items are read.
ghost use Rattle.std.specs.Prelude.{◌≡◌, ◌↔◌, IsSome, IfOk, OnOk, IsTrue};
ghost use Rattle.game_tree.specs.Building.{fresh, bare, with_move, with_nag, with_comment, with_variation, read_line};

use super::node::{Branch, Node, join};
use cell_core::{Move, Text};
use std::alloc::{AllocError, Global};
use std::marker::Model;

/// A line while it is read. What follows may still belong to its last move, which contracts see apart. After want of memory it is
/// spent.
#[derive(Debug, Drop)]
pub(crate) struct OpenLine {
    lead: Option<Text>,
    line: Vec<Node>,
}

impl Model for OpenLine {
    ghost use Rattle.game_tree.specs.Building.{Open, coded_open, open_of};
    ghost use Rattle.game_tree.specs.Kept.{IsVariation};
    ghost use Rattle.game_tree.specs.Tree.{line_of};

    ghost Value = { Open };

    ghost coded = { coded_open };

    ghost view = { λ o. open_of o.lead o.line.items };

    ghost invariant = { λ o. IsVariation (record { lead = o.lead; line = line_of o.line.items }) };
}

impl OpenLine {
    /// A line of which nothing was read.
    pub(crate) fn new(alloc: Global) -> OpenLine
        ensures fresh { result ≡ fresh }
    {
        OpenLine {
            lead: None,
            line: Vec::new(alloc),
        }
    }

    /// Whether the line has a move.
    pub(crate) fn has_move(&self) -> bool
        ensures has { IsTrue result ↔ IsSome self.now.last }
    {
        !self.line.is_empty()
    }

    /// Adds a move.
    pub(crate) fn play(&mut self, alloc: Global, mv: Move) -> Result<(), AllocError>
        ensures played { OnOk result (self.new ≡ with_move (bare mv) self.old) }
    {
        self.line.push(Node::new(alloc, mv))?;
        Ok(())
    }

    /// Adds a NAG to the last move.
    pub(crate) fn nag(&mut self, nag: u8) -> Result<(), AllocError>
        ensures nag_added { OnOk result (self.new ≡ with_nag nag self.old) }
    {
        if let Some(node) = self.line.last_mut() {
            return node.add_nag(nag);
        }
        Ok(())
    }

    /// Adds a comment to the last move, or to the line if it has no move yet.
    pub(crate) fn comment(&mut self, text: Text) -> Result<(), AllocError>
        ensures commented { OnOk result (self.new ≡ with_comment text self.old) }
    {
        if text.is_empty() {
            return Ok(());
        }
        if let Some(node) = self.line.last_mut() {
            return node.add_comment(text);
        }
        self.lead = Some(join(self.lead.take(), text)?);
        Ok(())
    }

    /// Hangs a variation on the last move.
    pub(crate) fn vary(&mut self, branch: Branch) -> Result<(), AllocError>
        ensures varied { OnOk result (self.new ≡ with_variation branch self.old) }
    {
        if let Some(node) = self.line.last_mut() {
            return node.add_variation(branch);
        }
        Ok(())
    }

    /// The line as far as it was read, as a variation.
    pub(crate) fn finish(self) -> Result<Branch, AllocError>
        ensures lead { IfOk result (λ branch. branch.lead ≡ self.lead) }
        ensures line { IfOk result (λ branch. branch.line ≡ read_line self) }
    {
        let OpenLine { lead, line } = self;
        Ok(Branch { lead, line })
    }
}
