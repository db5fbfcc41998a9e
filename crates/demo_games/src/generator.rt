//! The generator: its draws, the lines of moves and the games.
ghost use Rattle.std.specs.Prelude.{◌≡◌, ◌≤◌, ◌<◌, ◌%◌, length, map, IfOk, IfSome, MatchOption, OnOk};
ghost use Rattle.chess_laws.specs.Step.{Legal, stepped};
ghost use Rattle.demo_games.specs.Demo.{after_draws, demo_game, drawn, moves_drawn, next_number, picked};
ghost use Rattle.demo_games.specs.Moves.{legal_moves};
ghost use Rattle.game_tree.specs.Building.{bare};
ghost use Rattle.game_tree.specs.Head.{IsBounded};
ghost use Rattle.game_tree.specs.Legal.{IsLegalGame};
ghost use Rattle.game_tree.specs.Replay.{plies_of};
ghost use Rattle.game_tree.specs.Settle.{IsSettled};

use crate::heads::{demo_head, result_of};
use arrayvec::ArrayVec;
use cell_core::Move;
use chess_laws::Position;
use game_tree::{Game, Head, Node};
use std::alloc::{AllocError, Global};
use std::marker::Model;

// The greatest number of plies of a game.
const MOST_PLIES: u8 = 60;

// A draw multiplies its number and adds to it, modulo 2^64.
const MULTIPLIER: u64 = 6_364_136_223_846_793_005;

const INCREMENT: u64 = 1_442_695_040_888_963_407;

/// Makes games of draws from a seed, always the same ones. Contracts see the number from which it draws next.
#[derive(Debug, Drop)]
pub struct Generator {
    number: u64,
}

impl Model for Generator {
    ghost use Rattle.std.specs.Prelude.{ℕ};

    ghost Value = { ℕ };

    ghost view = { λ generator. generator.number };
}

impl Generator {
    /// The generator of this seed, before its first game.
    pub fn new(seed: u64) -> Generator
        ensures seeded { result ≡ seed }
    {
        Generator { number: seed }
    }

    /// Makes the next game, as that of this number. Its result is drawn first, then at most 60 plies from the initial
    /// position. The line ends earlier at a position with no legal move, or with more than 256. It fails only for want
    /// of memory, and is then spent.
    #[tactic(auto, using(crate::proofs::Drawing::made_is, crate::proofs::Drawing::made_short))]
    pub fn make(&mut self, alloc: Global, number: u32) -> Result<(Head, Game), AllocError>
        ensures made { IfOk result (λ made. demo_game self.old number ≡ record { head = made.0; game = made.1; left = self.new }) }

        // It is a game that a base takes.
        ensures legal { IfOk result (λ made. IsLegalGame made.1) }
        ensures bounded { IfOk result (λ made. IsBounded made.0) }
        ensures settled { IfOk result (λ made. IsSettled made.0) }
        ensures short { IfOk result (λ made. plies_of made.1 ≤ 60) }
    {
        let outcome = result_of(self.draw() % 4);
        let line = self.line(alloc)?;
        let head = demo_head(alloc, number, outcome)?;
        let game = Game {
            start: Position::start(),
            lead: None,
            line,
        };
        Ok((head, game))
    }

    // The moves of the next game.
    #[tactic(auto, using(crate::proofs::Drawing::ended_moves, crate::proofs::Drawing::whole_moves, crate::proofs::Drawing::whole_left))]
    fn line(&mut self, alloc: Global) -> Result<Vec<Node>, AllocError>
        ensures line { IfOk result (λ line. line.items ≡ map bare (moves_drawn self.old)) }
        ensures left { OnOk result (self.new ≡ after_draws (length (moves_drawn self.old)) self.old) }
    {
        let mut line = Vec::with_capacity(alloc, usize::from(MOST_PLIES))?;
        let mut position = Position::start();
        for _ply in 0..MOST_PLIES {
            let Some(mv) = self.pick(&position) else {
                return Ok(line);
            };
            play(&mut position, &mv);
            line.push(node_of(alloc, mv))?;
        }
        Ok(line)
    }

    // Draws one of the legal moves, or nothing if there are none or too many.
    fn pick(&mut self, position: &Position) -> Option<Move>
        ensures picked { result ≡ picked (drawn self.old) (legal_moves position.now) }
        ensures left { MatchOption result (self.new ≡ self.old) (λ _. self.new ≡ next_number self.old) }
        ensures legal { IfSome result (λ m. Legal position.now m) }
    {
        // The call tells that the position keeps the rules.
        let _ = position.setup();
        let mut moves: ArrayVec<Move, 256> = ArrayVec::new();
        if !position.legal_moves(&mut moves) {
            return None;
        }
        let moves = moves.as_slice();
        if moves.is_empty() {
            return None;
        }
        let place = remainder(self.draw(), moves.len());
        Some(moves[place])
    }

    // Draws.
    #[tactic(auto, unfolding(crate::specs::Demo::drawn))]
    fn draw(&mut self) -> u64
        ensures drawn { result ≡ drawn self.old }
        ensures left { self.new ≡ next_number self.old }
    {
        self.number = next_number(self.number);
        self.number >> 33
    }
}

// The number that follows.
#[tactic(auto, unfolding(crate::specs::Demo::next_number))]
fn next_number(x: u64) -> u64
    ensures { result ≡ next_number x }
{
    x.wrapping_mul(MULTIPLIER).wrapping_add(INCREMENT)
}

// A move behind which nothing stands.
fn node_of(alloc: Global, mv: Move) -> Node
    ensures { result ≡ bare mv }
{
    Node {
        mv,
        nags: Vec::new(alloc),
        comment: None,
        variations: Vec::new(alloc),
    }
}

// A draw modulo a count.
fn remainder(draw: u64, count: usize) -> usize
    requires { 0 < count }
    ensures at { result ≡ draw % count }
    ensures below { result < count }
{
    (draw % count as u64) as usize
}

// Plays a legal move.
fn play(position: &mut Position, m: &Move)
    requires legal { Legal position.old m.now }
    ensures played { position.new ≡ stepped position.old m.now }
{
    position.play(*m);
}
