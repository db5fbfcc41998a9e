//! The search of a game in memory for a board.
ghost use Rattle.std.specs.Prelude.{◌≡◌, false, IfSome};
ghost use Rattle.cell_core.specs.Packed.{packed_of};
ghost use Rattle.game_tree.specs.Legal.{IsLegalGame};
ghost use Rattle.pos_index.specs.Hits.{IsLegalOn};
ghost use Rattle.sig_index.specs.declared.pos_query.Mode.TheVariants.{Exact};
ghost use Rattle.sig_index.specs.declared.pos_query.PosQuery.{PosQuery as Query};
ghost use Rattle.pos_search.specs.InMemory.{Seeks, next_of};

use crate::matching::Sought;
use cell_core::{Board, Colour, Move};
use game_tree::Game;
use sig_index::{Mode, PosQuery};

/// The move after the first place of a legal game's main line that has this board with this side to move: `Some(None)` if the line ends
/// there, and `None` if it has no such place. No memory is taken, and the line is played no further than the board can come.
pub fn next_in(board: &Board, side: Colour, game: &Game) -> Option<Option<Move>>
    requires legal { IsLegalGame game.now }
    ensures next { (query : Query) → Seeks query (packed_of board.now side) → result ≡ next_of query game.now }
    // The move is legal in a position that has the board and the side.
    ensures legal { IfSome result (λ next. IfSome next (IsLegalOn (packed_of board.now side))) }
{
    let query = PosQuery {
        mode: Mode::Exact,
        board: *board,
        side,
        vars: false,
    };
    next_sought(&Sought::new(&query), game)
}

// The same of what is sought, by an exact search of the main line.
fn next_sought(q: &Sought<'_>, game: &Game) -> Option<Option<Move>>
    requires legal { IsLegalGame game.now }
    requires exact { q.now.mode ≡ Exact }
    requires main { q.now.vars ≡ false }
    ensures next { result ≡ next_of q.now game.now }
    ensures legal { IfSome result (λ next. IfSome next (IsLegalOn (packed_of q.now.board q.now.side))) }
{
    let mut coming = q.at_first();
    let mut position = game.start;
    for node in game.line.as_slice() {
        if q.matches(&position) {
            return Some(Some(node.mv));
        }
        if !q.can_follow(&position, &mut coming) {
            return None;
        }
        position.play(node.mv);
    }
    if q.matches(&position) {
        return Some(None);
    }
    None
}
