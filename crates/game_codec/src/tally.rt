//! What is met in the lines of a record.
ghost use Rattle.std.specs.Prelude.{◌≡◌, ◌<◌, ◌||◌, is_some};
ghost use Rattle.game_tree.specs.Promotions.{is_underpromotion_to};
ghost use Rattle.game_codec.specs.Nests.{token_of};
ghost use Rattle.game_codec.specs.Tallying.{added, no_tally, size_of};
ghost use Rattle.game_codec.specs.Token.{Play};

use super::token::Token;
use cell_core::{Kind, Move};

/// How many variations, marks of comments and NAGs were met, and whether a promotion was, and one to another man than a queen.
#[derive(Clone, Copy, Debug, PartialEq, Eq)]
pub(crate) struct Tally {
    pub(crate) variations: usize,
    pub(crate) comments: usize,
    pub(crate) nags: usize,
    pub(crate) promo: bool,
    pub(crate) under: bool,
}

impl Tally {
    /// Of nothing yet.
    pub(crate) fn new() -> Tally
        ensures none { result ≡ no_tally }
    {
        Tally {
            variations: 0,
            comments: 0,
            nags: 0,
            promo: false,
            under: false,
        }
    }

    /// Adds an item.
    pub(crate) fn add(&mut self, token: &Token)
        requires room { size_of self.old < usize.MAX }
        ensures added { self.new ≡ added self.old (token_of token.now) }
    {
        match *token {
            Token::Play(m) => self.play(&m),
            Token::Nag(_) => self.nags += 1,
            Token::Comment => self.comments += 1,
            Token::Open => self.variations += 1,
            Token::Close | Token::End => {}
        }
    }

    /// Adds a move.
    #[inline(always)]
    pub(crate) fn play(&mut self, m: &Move)
        ensures added { self.new ≡ added self.old (Play m.now) }
    {
        self.promote(m.promo);
    }

    // Adds what a move makes of a pawn.
    #[inline(always)]
    fn promote(&mut self, promo: Option<Kind>)
        ensures variations { self.new.variations ≡ self.old.variations }
        ensures comments { self.new.comments ≡ self.old.comments }
        ensures nags { self.new.nags ≡ self.old.nags }
        ensures promo { self.new.promo ≡ (self.old.promo || is_some promo) }
        ensures under { self.new.under ≡ (self.old.under || is_underpromotion_to promo) }
    {
        if let Some(kind) = promo {
            self.promo = true;
            self.under |= kind != Kind::Queen;
        }
    }
}
