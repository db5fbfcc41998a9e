//! How many variations, comments and NAGs a game has, in all its lines.
ghost use Rattle.std.specs.Prelude.{◌≡◌, ◌+◌, length};
ghost use Rattle.std.specs.Option.{option_len};
ghost use Rattle.game_tree.specs.Tree.{line_of, branches_of};
ghost use Rattle.game_tree.specs.Counts.{variations_of, comments_of, nags_of, in_64_bits};
ghost use Rattle.game_tree.specs.Counting.{Came, Fit, line_variations, branches_variations, line_comments, branches_comments, line_nags, branches_nags};

use super::game::Game;
use super::node::{Branch, Node};
use cell_core::Text;

/// How many variations, comments and NAGs (numeric annotation glyphs) there are. A count that 64 bits cannot hold is the
/// greatest that they can.
#[derive(Clone, Copy, Debug, Default, PartialEq, Eq)]
pub struct Counts {
    pub variations: u64,
    pub comments: u64,
    pub nags: u64,
}

impl Game {
    /// The variations, comments and NAGs of the main line and of all variations. A comment before the first move of the
    /// game or of a variation counts.
    pub fn counts(&self) -> Counts
        ensures variations { result.variations ≡ in_64_bits (variations_of self.now) }
        ensures comments { result.comments ≡ in_64_bits (comments_of self.now) }
        ensures nags { result.nags ≡ in_64_bits (nags_of self.now) }
    {
        let mut counts = Counts {
            variations: 0,
            comments: one_comment(&self.lead),
            nags: 0,
        };
        count_line(&mut counts, self.line.as_slice());
        counts
    }
}

// Counts what a line has.
#[cycle(counting)]
fn count_line(counts: &mut Counts, line: &[Node])
    requires fit { Fit counts.old }
    ensures fit { Fit counts.new }
    ensures came { Came counts.old counts.new (line_variations (line_of line.now)) (line_comments (line_of line.now)) (line_nags (line_of line.now)) }
{
    for node in line {
        counts.comments = counts.comments.saturating_add(one_comment(&node.comment));
        counts.nags = counts.nags.saturating_add(node.nags.len() as u64);
        count_branches(counts, node.variations.as_slice());
    }
}

// Counts these variations and what they have.
#[cycle(counting)]
fn count_branches(counts: &mut Counts, branches: &[Branch])
    requires fit { Fit counts.old }
    ensures fit { Fit counts.new }
    ensures came { Came counts.old counts.new (branches_variations (branches_of branches.now)) (branches_comments (branches_of branches.now)) (branches_nags (branches_of branches.now)) }
{
    for branch in branches {
        counts.variations = counts.variations.saturating_add(1);
        counts.comments = counts.comments.saturating_add(one_comment(&branch.lead));
        count_line(counts, branch.line.as_slice());
    }
}

// 1 for a comment, and 0 for none.
fn one_comment(comment: &Option<Text>) -> u64
    ensures { result ≡ option_len comment.now }
{
    match comment {
        None => 0,
        Some(_) => 1,
    }
}
