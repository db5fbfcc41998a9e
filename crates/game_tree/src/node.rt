//! A move of a line with what follows it, and a variation.
ghost use Rattle.std.specs.Prelude.{◌≡◌, IfOk, OnOk, Some};
ghost use Rattle.cell_core.specs.Text.{IsZeroFree};
ghost use Rattle.game_tree.specs.Kept.{IsPlayed};
ghost use Rattle.game_tree.specs.Movetext.{joined};
ghost use Rattle.game_tree.specs.Building.{bare, more_nags, more_comment, more_variations};

use cell_core::{Move, Text};
use std::alloc::{AllocError, Global};
use std::marker::Model;

/// A move of a line, with the numeric annotation glyphs and the comment that follow it. The variations replace it: each
/// begins at the position before the move.
#[cycle(tree)]
#[derive(Debug, Drop)]
pub struct Node {
    pub mv: Move,
    pub nags: Vec<u8>,
    pub comment: Option<Text>,
    pub variations: Vec<Branch>,
}

/// A variation: its comment before the first move, and its moves.
#[cycle(tree)]
#[derive(Debug, Drop)]
pub struct Branch {
    pub lead: Option<Text>,
    pub line: Vec<Node>,
}

impl Model for Node {
    ghost use Rattle.std.specs.Prelude.{List, ℕ};
    ghost use Rattle.std.proofs.Common.{arith};
    ghost use Rattle.game_tree.specs.Tree.{Played, branches_of};
    ghost use Rattle.game_tree.specs.TreeCode.{coded_played, played_size, most-variation};
    ghost use Rattle.game_tree.specs.Kept.{IsPlayed};

    ghost Value = { Played };

    ghost coded = { coded_played };

    ghost view = { λ n. record { mv = n.mv; nags = n.nags.items; comment = n.comment; variations = branches_of n.variations.items } };

    ghost invariant = { λ n. IsPlayed (record { mv = n.mv; nags = n.nags.items; comment = n.comment; variations = branches_of n.variations.items }) };

    ghost size = { played_size };

    ghost size_decreases = { λ a h. omega (arith, most-variation a.variations.items) };
}

impl Model for Branch {
    ghost use Rattle.std.specs.Prelude.{List, ℕ};
    ghost use Rattle.std.proofs.Common.{arith};
    ghost use Rattle.game_tree.specs.Tree.{Variation, line_of};
    ghost use Rattle.game_tree.specs.TreeCode.{coded_variation, variation_size, most-played};
    ghost use Rattle.game_tree.specs.Kept.{IsVariation};

    ghost Value = { Variation };

    ghost coded = { coded_variation };

    ghost view = { λ b. record { lead = b.lead; line = line_of b.line.items } };

    ghost invariant = { λ b. IsVariation (record { lead = b.lead; line = line_of b.line.items }) };

    ghost size = { variation_size };

    ghost size_decreases = { λ a h. omega (arith, most-played a.line.items) };
}

impl Node {
    /// A move behind which nothing stands yet.
    pub(crate) fn new(alloc: Global, mv: Move) -> Node
        ensures bare { result ≡ bare mv }
        ensures kept { IsPlayed result }
    {
        Node {
            mv,
            nags: Vec::new(alloc),
            comment: None,
            variations: Vec::new(alloc),
        }
    }

    /// Adds a NAG behind the others.
    pub(crate) fn add_nag(&mut self, nag: u8) -> Result<(), AllocError>
        ensures added { OnOk result (self.new ≡ more_nags nag self.old) }
        ensures kept { IsPlayed self.new }
    {
        self.nags.push(nag)?;
        Ok(())
    }

    /// Adds a text of at least one byte to the comment.
    pub(crate) fn add_comment(&mut self, text: Text) -> Result<(), AllocError>
        ensures added { OnOk result (self.new ≡ more_comment (Some text) self.old) }
        ensures kept { IsPlayed self.new }
    {
        self.comment = Some(join(self.comment.take(), text)?);
        Ok(())
    }

    /// Adds a variation behind the others.
    pub(crate) fn add_variation(&mut self, branch: Branch) -> Result<(), AllocError>
        ensures added { OnOk result (self.new ≡ more_variations branch self.old) }
        ensures kept { IsPlayed self.new }
    {
        // Reading the field makes the invariant of its text known, which gives the clause `kept`.
        let _ = &branch.lead;
        self.variations.push(branch)?;
        Ok(())
    }
}

/// A comment with a text of at least one byte behind it, after a space.
pub(crate) fn join(comment: Option<Text>, text: Text) -> Result<Text, AllocError>
    ensures joined { IfOk result (λ both. Some both ≡ joined comment (Some text)) }
    ensures zero_free { IfOk result (λ both. IsZeroFree both) }
{
    match comment {
        None => {
            // The call tells that the text has no zero byte.
            let _ = text.as_bytes();
            Ok(text)
        }
        Some(before) => {
            let mut bytes = before.into_bytes();
            bytes.push(b' ')?;
            bytes.extend_from_slice(text.as_bytes())?;
            Ok(Text::from_zero_free(bytes))
        }
    }
}
