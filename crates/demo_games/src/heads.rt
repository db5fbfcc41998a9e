//! The heads of the games.
ghost use Rattle.std.specs.Prelude.{◌≡◌, IfOk};
ghost use Rattle.cell_core.specs.Text.{IsZeroFree};
ghost use Rattle.game_tree.specs.Head.{IsBounded};
ghost use Rattle.game_tree.specs.Settle.{IsSettled};
ghost use Rattle.demo_games.specs.Demo.{demo_head, result_of};

use cell_core::Text;
use game_tree::{Date, Head, Outcome, Rating, Tags};
use std::alloc::{AllocError, Global};

// The head of the game of a number, with this result.
#[tactic(auto, using(crate::proofs::Settling::demo_settled))]
pub(crate) fn demo_head(alloc: Global, number: u32, outcome: Outcome) -> Result<Head, AllocError>
    ensures head { IfOk result (λ head. head ≡ demo_head number outcome) }
    ensures bounded { IfOk result (λ head. IsBounded head) }
    ensures settled { IfOk result (λ head. IsSettled head) }
{
    let head = fields(alloc, number, outcome)?;
    Ok(head)
}

// The same, without its law.
#[tactic(auto, unfolding(crate::specs::Demo::demo_head))]
fn fields(alloc: Global, number: u32, outcome: Outcome) -> Result<Head, AllocError>
    ensures head { IfOk result (λ head. head ≡ demo_head number outcome) }
    ensures bounded { IfOk result (λ head. IsBounded head) }
{
    let step = (number % 400) as u16;
    Ok(Head {
        white: text_of(alloc, b"Demo White")?,
        black: text_of(alloc, b"Demo Black")?,
        event: text_of(alloc, b"Demo")?,
        site: text_of(alloc, b"?")?,
        round: text_of(alloc, b"?")?,
        date: Date::unknown(),
        event_date: Date::unknown(),
        result: outcome,
        white_rating: Rating {
            value: 2000 + step,
            kind: 0,
        },
        black_rating: Rating {
            value: 2400 - step,
            kind: 0,
        },
        eco: 0,
        marks: 0,
        deleted: false,
        tags: Tags::new(alloc),
    })
}

// A text of these bytes.
fn text_of(alloc: Global, bytes: &[u8]) -> Result<Text, AllocError>
    requires { IsZeroFree bytes.now }
    ensures { IfOk result (λ text. text ≡ bytes.now) }
{
    Ok(Text::from_zero_free(Vec::from_slice(alloc, bytes)?))
}

// The result of a draw.
pub(crate) fn result_of(code: u64) -> Outcome
    ensures { result ≡ result_of code }
{
    match code {
        1 => Outcome::White,
        2 => Outcome::Black,
        3 => Outcome::Draw,
        _ => Outcome::Unknown,
    }
}
