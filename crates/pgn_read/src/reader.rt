//! Reading a text item by item.
ghost use Rattle.std.specs.Prelude.{◌≡◌, ◌≤◌, ◌<◌, ◌+◌, [], length, option_map, None, Some, Ok, Err, IfOk, IfErr, IfSome, OnOk, OnErr, IsTrue};
ghost use Rattle.base_files.specs.Told.{Tells};
ghost use Rattle.pgn_read.specs.Causes.{HasCause};
ghost use Rattle.pgn_read.specs.Items.{next, item_at, effect_at, first_token};
ghost use Rattle.pgn_read.specs.Fit.{IsFit};
ghost use Rattle.pgn_read.specs.Legality.{IsLegal, EndsLegally, StepsLegally};
ghost use Rattle.pgn_read.specs.Readers.{ahead, fresh_reader, told, Follows, IsStuck};
ghost use Rattle.pgn_read.specs.Said.{said_step, StepsWell, EndsWell, IsBalanced};
ghost use Rattle.pgn_read.specs.Text.{most_ahead};
ghost use Rattle.pgn_read.specs.Window.{front, by_end, Decides, Moved, FrontMoved, WhyUntaken, passes};

use crate::error::PgnError;
use crate::item::{GameFault, GameWhat, Item};
use crate::lexing::lexed;
use crate::reading::Reading;
use crate::step::{End, Step, Untaken};
use crate::window::Window;
use base_files::Source;
use std::alloc::{AllocError, Global};
use std::marker::Model;

/// Reads the items of a text in Portable Game Notation from a source: its games, and the first fault of each item that is no
/// game. It keeps the bytes that it has read and not yet used: some 16,384, or about twice as many as the token that comes next
/// has, and never more than 2,117,646.
#[derive(Drop)]
pub struct Reader {
    window: Window,
    stuck: Option<PgnError>,
}

impl Model for Reader {
    ghost use Rattle.pgn_read.specs.Fit.{IsFit};
    ghost use Rattle.pgn_read.specs.Legality.{IsLegal, EndsLegally, StepsLegally};
    ghost use Rattle.pgn_read.specs.Readers.{Reader as Seen};

    ghost Value = { Seen };

    ghost view = { λ r. record { window = r.window; stuck = r.stuck } };
}

impl Reader {
    /// A reader at the beginning of a text.
    pub fn new(alloc: Global) -> Result<Reader, AllocError>
        ensures new { IfOk result (λ reader. reader ≡ fresh_reader) }
    {
        Ok(Reader {
            window: Window::new(alloc),
            stuck: None,
        })
    }

    /// Reads the next item, or finds that there is none. After an error the reader answers the same again, and asks nothing of
    /// the source.
    pub fn next<S: Source>(
        &mut self,
        alloc: Global,
        source: &mut S,
    ) -> Result<Option<Item>, PgnError>
        ensures item { IfOk result (λ item. Follows (told self.old (S.left source.old)) item (told self.new (S.left source.new))) }
        // What a base asks of a game that it takes.
        ensures good { IfOk result (λ item. IfSome item IsFit) }
        ensures stuck { IfErr result (λ error. self.new.stuck ≡ Some error) }
        ensures free { OnOk result (self.new.stuck ≡ None) }
        ensures again { IfSome self.old.stuck (λ error. (result ≡ Err error) × ((self.new ≡ self.old) × (source.new ≡ source.old))) }
        ensures cause { IfErr result (λ error. IsStuck error self.old (S.faults source.old) (S.faults source.new)) }
        ensures spends { S.budget source.new ≤ S.budget source.old }
        ensures counts { S.faults source.old ≤ S.faults source.new }
        ensures same { S.origin source.new ≡ S.origin source.old }
        ensures ahead { OnOk result (length self.new.window.unread ≤ most_ahead) }
    {
        if let Some(error) = self.stuck {
            return Err(error);
        }
        match read_item(alloc, &mut self.window, source) {
            Ok(item) => {
                self.window.is_bounded();
                Ok(item)
            }
            Err(error) => {
                self.stuck = Some(error);
                Err(error)
            }
        }
    }
}

// Reads the next item.
#[tactic(auto, using(crate::proofs::ItemLaws::item_follows, crate::proofs::LegalLaws::unread_legal))]
fn read_item<S: Source>(
    alloc: Global,
    window: &mut Window,
    source: &mut S,
) -> Result<Option<Item>, PgnError>
    ensures good { IfOk result (λ item. IfSome item IsFit) }
    ensures item { IfOk result (λ item. Follows (ahead window.old (S.left source.old)) item (ahead window.new (S.left source.new))) }
    ensures spends { S.budget source.new ≤ S.budget source.old }
    ensures counts { S.faults source.old ≤ S.faults source.new }
    ensures same { S.origin source.new ≡ S.origin source.old }
    ensures cause { IfErr result (λ e. HasCause e (S.faults source.old) (S.faults source.new)) }
{
    window.begin();
    if let Err(error) = to_first_token(window, source) {
        return Err(error);
    }
    read_game(alloc, window, source, Reading::new(alloc))
}

// Goes to the next item's first token, from which its length counts.
#[tactic(auto, using(crate::proofs::ItemLaws::to_first))]
fn to_first_token<S: Source>(window: &mut Window, source: &mut S) -> Result<(), PgnError>
    requires told { IsTrue window.old.ended → Tells (S.left source.old) [] }
    ensures first { OnOk result (option_map first_token (ahead window.old (S.left source.old)) ≡ ahead window.new (S.left source.new)) }
    ensures told { OnOk result (IsTrue window.new.ended → Tells (S.left source.new) []) }
    ensures spends { S.budget source.new ≤ S.budget source.old }
    ensures counts { S.faults source.old ≤ S.faults source.new }
    ensures same { S.origin source.new ≡ S.origin source.old }
    ensures cause { IfErr result (λ e. HasCause e (S.faults source.old) (S.faults source.new)) }
{
    if let Err(error) = window.skip_mark(source) {
        return Err(error);
    }
    if let Err(error) = window.skip_gap(source) {
        return Err(error);
    }
    window.count_from_here();
    Ok(())
}

// Reads a game from its next token on, behind what was read of it.
#[tactic(auto, using(crate::proofs::ItemLaws::goes_further, crate::proofs::ItemLaws::comes_to_end))]
fn read_game<S: Source>(
    alloc: Global,
    window: &mut Window,
    source: &mut S,
    game: Reading,
) -> Result<Option<Item>, PgnError>
    requires told { IsTrue window.old.ended → Tells (S.left source.old) [] }
    requires balanced { IsBalanced game }
    requires legal { IsLegal game }
    ensures good { IfOk result (λ item. IfSome item IsFit) }
    ensures item { IfOk result (λ item. option_map (item_at game) (ahead window.old (S.left source.old)) ≡ option_map (next item) (ahead window.new (S.left source.new))) }
    ensures spends { S.budget source.new ≤ S.budget source.old }
    ensures counts { S.faults source.old ≤ S.faults source.new }
    ensures same { S.origin source.new ≡ S.origin source.old }
    ensures cause { IfErr result (λ e. HasCause e (S.faults source.old) (S.faults source.new)) }
{
    let mut game = game;
    'tokens: loop {
        let step = match take_token(alloc, window, source, &mut game) {
            Ok(step) => step,
            Err(error) => return Err(error),
        };
        match step {
            Step::GoesOn => {
                if let Err(error) = window.skip_gap(source) {
                    return Err(error);
                }
            }
            Step::Ends(end) => return end_item(alloc, window, source, game, end),
        }
    }
}

// Takes the next token into the game. The bytes are read on only if those that are there do not tell it.
#[tactic(auto, using(crate::proofs::ItemLaws::told_effect, crate::proofs::ItemLaws::told_moved))]
fn take_token<S: Source>(
    alloc: Global,
    window: &mut Window,
    source: &mut S,
    game: &mut Reading,
) -> Result<Step, PgnError>
    requires told { IsTrue window.old.ended → Tells (S.left source.old) [] }
    requires balanced { IsBalanced game.old }
    requires legal { IsLegal game.old }
    ensures effect { IfOk result (λ step. IfSome (ahead window.old (S.left source.old)) (λ a. effect_at game.old a ≡ said_step step game.new)) }
    ensures moved { IfOk result (λ step. Moved step (ahead window.old (S.left source.old)) (ahead window.new (S.left source.new))) }
    ensures well { IfOk result (λ step. StepsWell step game.old game.new) }
    ensures balanced { OnOk result (IsBalanced game.new) }
    ensures legal { IfOk result (λ step. StepsLegally step game.new) }
    ensures told { OnOk result (IsTrue window.new.ended → Tells (S.left source.new) []) }
    ensures shorter { result ≡ Ok Step.GoesOn → S.budget source.new + length window.new.unread < S.budget source.old + length window.old.unread }
    ensures spends { S.budget source.new ≤ S.budget source.old }
    ensures counts { S.faults source.old ≤ S.faults source.new }
    ensures same { S.origin source.new ≡ S.origin source.old }
    ensures cause { IfErr result (λ e. HasCause e (S.faults source.old) (S.faults source.new)) }
{
    'looks: loop {
        match take_front(alloc, window, game) {
            Ok(step) => return Ok(step),
            Err(Untaken::Untold) => {
                if let Err(error) = window.read_on(source) {
                    return Err(error);
                }
            }
            Err(Untaken::Memory) => return Err(PgnError::Memory),
        }
    }
}

// Takes the token at the front of the window into the game, if the window tells it, and passes over it if reading goes on behind it.
#[tactic(auto, using(crate::proofs::SoundLaws::token_sound, crate::proofs::LegalLaws::steps_legally))]
fn take_front(alloc: Global, window: &mut Window, game: &mut Reading) -> Result<Step, Untaken>
    requires balanced { IsBalanced game.old }
    requires legal { IsLegal game.old }
    ensures decides { OnOk result (Decides window.old) }
    ensures why { IfErr result (λ why. WhyUntaken why window.old window.new game.old game.new) }
    ensures effect { IfOk result (λ step. effect_at game.old (front window.old) ≡ said_step step game.new) }
    ensures moved { IfOk result (λ step. FrontMoved step window.old window.new) }
    ensures well { IfOk result (λ step. StepsWell step game.old game.new) }
    ensures balanced { OnOk result (IsBalanced game.new) }
    ensures legal { IfOk result (λ step. StepsLegally step game.new) }
    ensures ended { window.new.ended ≡ window.old.ended }
    ensures shorter { result ≡ Ok Step.GoesOn → length window.new.unread < length window.old.unread }
{
    window.search_comment();
    let unread = window.unread();
    let found = lexed(unread, window.clear());
    if !window.tells(found.rest.len()) {
        return Err(Untaken::Untold);
    }
    if game.is_next_game(unread) {
        return Ok(Step::Ends(End::Before));
    }
    let size = unread.len() - found.rest.len();
    if size > window.room() {
        return Ok(Step::Ends(End::Faulty(GameWhat::TooLong)));
    }
    let step = game.take(alloc, found.token)?;
    if passes(step) {
        window.pass(size);
    }
    Ok(step)
}

// Whether reading goes on behind the token.
fn passes(step: Step) -> bool
    ensures { result ≡ passes step }
{
    match step {
        Step::GoesOn => true,
        Step::Ends(End::Behind(_)) => true,
        Step::Ends(End::Before) => false,
        Step::Ends(End::Faulty(_)) => false,
    }
}

// The item that a game is which ends so, and behind a fault the way to the next line that begins a game.
#[tactic(auto, using(crate::proofs::ItemLaws::good_told, crate::proofs::ItemLaws::before_game, crate::proofs::ItemLaws::before_none, crate::proofs::ItemLaws::fault_told))]
fn end_item<S: Source>(
    alloc: Global,
    window: &mut Window,
    source: &mut S,
    game: Reading,
    end: End,
) -> Result<Option<Item>, PgnError>
    requires told { IsTrue window.old.ended → Tells (S.left source.old) [] }
    requires balanced { IsBalanced game }
    requires well { EndsWell end game game }
    requires legal { EndsLegally end game }
    ensures good { IfOk result (λ item. IfSome item IsFit) }
    ensures item { IfOk result (λ item. option_map (by_end game end) (ahead window.old (S.left source.old)) ≡ option_map (next item) (ahead window.new (S.left source.new))) }
    ensures spends { S.budget source.new ≤ S.budget source.old }
    ensures counts { S.faults source.old ≤ S.faults source.new }
    ensures same { S.origin source.new ≡ S.origin source.old }
    ensures cause { IfErr result (λ e. HasCause e (S.faults source.old) (S.faults source.new)) }
{
    match end {
        End::Behind(outcome) => {
            let item = game.finish(alloc, Some(outcome))?;
            Ok(Some(item))
        }
        End::Before => {
            if !game.is_game() {
                return Ok(None);
            }
            let item = game.finish(alloc, None)?;
            Ok(Some(item))
        }
        End::Faulty(what) => {
            let place = window.place();
            if let Err(error) = window.resume(source) {
                return Err(error);
            }
            Ok(Some(Item::Bad(GameFault {
                line: place.line,
                column: place.column,
                what,
            })))
        }
    }
}
