//! The session: the one call that `main` makes.
ghost use Rattle.std.specs.Prelude.{◌≡◌, ◌↔◌, ℕ, ◌⊎◌, ◌≤◌, List, None, Some, length, map, string_bytes};
ghost use Rattle.base_files.specs.Seen.{SameContents, Seen};
ghost use Rattle.base_files.specs.Counters.{Rose};
ghost use Rattle.base_files.specs.Told.{Grew, adds};
ghost use Rattle.command_runs.specs.Counts.{NoneFell, counts};
ghost use Rattle.shell_session.specs.Around.{meanings};
ghost use Rattle.shell_session.specs.Session.{Answers, Asks, Chooses, Due, Reads, StaysIfRefused, WhyStatus, given, opening_text};
ghost use Rattle.shell_session.specs.Words.{words_read};

use crate::opening::{open, write_opening};
use crate::running::run_script;
use crate::words::words_read;
use base_files::{Files, Sink, Source};
use session_status::Status;
use std::alloc::Global;
use tree_live::TreeView;

/// Runs the script of the input over the base that the words name, and writes its text.
///
/// The words are `[--create] [--strict] [--desk] BASE`, each option at most once, in any order. The text is a line
/// `base G games M mended`, and then the texts of the script's commands, one a line, up to `quit` or the end of the
/// input.
///
/// With `--desk` four clients say the script, whose lines begin `@0 `, `@1 `, `@2 ` or `@3 `. Each client has its own
/// filters and the two slots from twice its number on, and its texts stand behind its tag. `quit` ends its client
/// alone, and the script ends with the last of them.
///
/// The places of `views` are the slots of the script, of which those with a view can show a tree. A view is told the
/// rows of the tree that its slot shows, and dropped when the slot shows none any more.
pub fn session<F: Files, S: Source, K: Sink>(
    alloc: Global,
    words: &[String],
    files: &mut F,
    input: &mut S,
    out: &mut K,
    views: &mut Vec<Option<Box<dyn TreeView>>>,
) -> Status
    requires few { length views.old.items ≤ 8 }

    // If the files and the input tell their contents, the status says what was written, of what was given, what the files carry, and what
    // the views show.
    ensures answers { (index names games script : List ℕ) → (F.seen files.old).index ≡ Some index → (F.seen files.old).names ≡ Some names → (F.seen files.old).games ≡ Some games → S.left input.old ≡ Some script →
        Answers (given (map string_bytes words.now) index names games (F.seen files.old).fresh script (meanings (λ b. rows b) (λ b. told b) views.old.items)) (K.taken out.old) (K.taken out.new)
        (record { left = S.left input.old; budget = S.budget input.old; faults = S.faults input.old }) (record { left = S.left input.new; budget = S.budget input.new; faults = S.faults input.new })
        (record { seen = F.seen files.new; first = meanings (λ b. rows b) (λ b. told b) views.old.items; most = λ _. 0; now = meanings (λ b. rows b) (λ b. told b) views.new.items }) result }

    // If no count of faults rises, the status is the one that is due, or memory ran out.
    ensures due { (index names games script : List ℕ) → (F.seen files.old).index ≡ Some index → (F.seen files.old).names ≡ Some names → (F.seen files.old).games ≡ Some games → S.left input.old ≡ Some script →
        ¬ Rose (F.faults files.old) (F.faults files.new) → ¬ Rose (S.faults input.old) (S.faults input.new) → ¬ Rose (K.faults out.old) (K.faults out.new) →
        (result ≡ Status.Memory) ⊎ Due (given (map string_bytes words.now) index names games (F.seen files.old).fresh script (meanings (λ b. rows b) (λ b. told b) views.old.items)) result }

    // The words decide alone, and first.
    ensures words { (result ≡ Status.Usage) ↔ (words_read (map string_bytes words.now) ≡ None) }

    // No count of faults fell, and a status has its cause.
    ensures counts { NoneFell (counts (F.faults files.old) (S.faults input.old) (K.faults out.old)) (counts (F.faults files.new) (S.faults input.new) (K.faults out.new)) }
    ensures why { WhyStatus result (counts (F.faults files.old) (S.faults input.old) (K.faults out.old)) (counts (F.faults files.new) (S.faults input.new) (K.faults out.new)) }

    // The bytes that are asked of the games file.
    ensures asks { (index names games script : List ℕ) → (F.seen files.old).index ≡ Some index → (F.seen files.old).names ≡ Some names → (F.seen files.old).games ≡ Some games → S.left input.old ≡ Some script →
        Asks (given (map string_bytes words.now) index names games (F.seen files.old).fresh script (meanings (λ b. rows b) (λ b. told b) views.old.items)) (F.asked files.old) (F.asked files.new) }

    // Whatever the files tell, nothing is written if the words or the files refuse, and the views are as they were.
    ensures silent { StaysIfRefused result (K.taken out.old) (K.taken out.new) }
    ensures untouched { StaysIfRefused result (meanings (λ b. rows b) (λ b. told b) views.old.items) (meanings (λ b. rows b) (λ b. told b) views.new.items) }

    // If anything was taken of the input, or it counted a fault, the opening line stands in what was written.
    ensures opened { (S.budget input.new ≡ S.budget input.old → S.faults input.new ≡ S.faults input.old → ⊥) → (games mended : ℕ) × Grew (adds (K.taken out.old) (opening_text games mended)) (K.taken out.new) }

    // There are as many places of views as before.
    ensures number { length views.new.items ≡ length views.old.items }

    // What is read of any input.
    ensures reads { Reads result (record { left = S.left input.old; budget = S.budget input.old; faults = S.faults input.old }) (record { left = S.left input.new; budget = S.budget input.new; faults = S.faults input.new }) }

    // The base of the words is chosen once, as they say, and if nothing of the input was taken no file is changed.
    ensures choices { Chooses result (map string_bytes words.now) (F.seen files.old).choices (F.seen files.new).choices }
    ensures contents { S.budget input.new ≡ S.budget input.old → SameContents (F.seen files.old) (F.seen files.new) }
{
    let Some(wanted) = words_read(words) else {
        return Status::Usage;
    };
    let (mut desk, mended) = match open(alloc, files, &wanted) {
        Ok(opened) => opened,
        Err(status) => return status,
    };
    if let Err(stop) = write_opening(alloc, desk.games(), mended, out) {
        return Status::from(stop);
    }
    match run_script(alloc, &mut desk, views.as_mut_slice(), files, input, out) {
        Ok(()) => Status::Done,
        Err(status) => status,
    }
}
