//! The run of a script.
ghost use Rattle.std.specs.Prelude.{◌≡◌, ◌≤◌, ◌<◌, ◌+◌, ℕ, false, true, List, [], length, None, Some, Ok, OnOk, IfOk, IfErr, IfSome};
ghost use Rattle.std.specs.Result.{result_err};
ghost use Rattle.base_files.specs.Seen.{Seen};
ghost use Rattle.base_files.specs.Told.{before};
ghost use Rattle.command_runs.specs.Counts.{Causes, counts};
ghost use Rattle.command_runs.specs.Endings.{Done, NoneLost, Serves};
ghost use Rattle.command_runs.specs.Plain.{after_all, run};
ghost use Rattle.desk_commands.specs.Desk.{Desk as PlainDesk, desks, seen_by};
ghost use Rattle.desk_commands.specs.Standing.{BrokenLine, DeskSound, line_left, line_price};
ghost use Rattle.desk_commands.specs.Views.{line_told};
ghost use Rattle.script_lines.specs.Clients.{is_end, new_clients, tagged_task};
ghost use Rattle.script_lines.specs.Standing.{Standing, left_of};
ghost use Rattle.script_lines.specs.Script.{longest_script, piece_len, script_of};
ghost use Rattle.script_text.specs.Sound.{IsSoundLine};
ghost use Rattle.script_text.specs.Tasks.{body_word};
ghost use Rattle.shell_commands.specs.Tasks.{order_writes};
ghost use Rattle.shell_session.specs.Around.{AreLeftBy, Lives, Views, around, meanings, price_all, told_all, told_more};
ghost use Rattle.shell_session.specs.Running.{BodyDone, GoneOn, Halts, Interrupted, Kept, LastDid, LastHalts, LineDone, Stops, added, behind_at, last_tasks};
ghost use Rattle.shell_session.specs.Session.{RanAll, RanPart};
ghost use Rattle.session_status.specs.Stops.{status_in_body};
ghost use Rattle.shell_state.specs.Carrying.{StillCarry};
ghost use Rattle.shell_state.specs.Stands.{WhyHalt};

use base_files::{Failed, Files, Sink, Source, Stop};
use cell_core::Text;
use desk_commands::{Desk, serve};
use script_lines::{At, Begins, Body, Line, LineReader, NoBody, Place, Taken, body_word, is_quit};
use script_text::Command;
use session_status::Status;
use shell_state::Halt;
use std::alloc::Global;
use std::marker::Brand;
use tree_live::TreeView;

/// Runs the script of the input, line by line, to the `quit` by which the last client ends, or to the end of the input.
pub(crate) fn run_script<F: Files, S: Source, K: Sink>(
    alloc: Global,
    desk: &mut Desk,
    views: &mut [Option<Box<dyn TreeView>>],
    files: &mut F,
    input: &mut S,
    out: &mut K,
) -> Result<(), Status>
    requires sound { DeskSound desk.old (F.seen files.old) }
    requires fresh { desk.old.clients ≡ new_clients desk.old.clients.tagged }
    ensures all { OnOk result ((d : PlainDesk) (first : Views) (most : ℕ → ℕ) (script : List ℕ) → Lives desk.old (around (F.seen files.old) first most (meanings (λ b. rows b) (λ b. told b) views.old)) d → S.left input.old ≡ Some script → RanAll d script (K.taken out.old) (K.taken out.new) (S.left input.new) (around (F.seen files.new) first most (meanings (λ b. rows b) (λ b. told b) views.new))) }
    ensures part { IfErr result (λ status. (d : PlainDesk) (first : Views) (most : ℕ → ℕ) (script : List ℕ) → Lives desk.old (around (F.seen files.old) first most (meanings (λ b. rows b) (λ b. told b) views.old)) d → S.left input.old ≡ Some script → RanPart status d script (K.taken out.old) (K.taken out.new) (S.left input.new) (around (F.seen files.new) first most (meanings (λ b. rows b) (λ b. told b) views.new))) }
    ensures asks { (d : PlainDesk) (first : Views) (most : ℕ → ℕ) (script : List ℕ) → Lives desk.old (around (F.seen files.old) first most (meanings (λ b. rows b) (λ b. told b) views.old)) d → S.left input.old ≡ Some script → F.asked files.new ≤ F.asked files.old + price_all d (script_of d.clients.tagged script) }
    // If nothing of the input was taken, no file is changed, whatever it tells.
    ensures untaken { S.budget input.new ≡ S.budget input.old → F.seen files.new ≡ F.seen files.old }
    ensures none_lost { NoneLost (K.taken out.old) (K.taken out.new) }
    ensures number { length views.new ≡ length views.old }
    ensures kept { Kept true desk.new (F.seen files.old) (F.seen files.new) (counts (F.faults files.old) (S.faults input.old) (K.faults out.old)) (counts (F.faults files.new) (S.faults input.new) (K.faults out.new)) (S.budget input.old) (S.budget input.new) (result_err result) }
{
    let Ok(mut reader) = LineReader::new(alloc, desk.clients().is_tagged()) else {
        return Err(Status::Memory);
    };
    'lines: loop {
        match reader.next(alloc, input) {
            Ok(Taken::Line(line)) => {
                match run_task(alloc, desk, views, files, input, out, reader, line) {
                    Ok(Some(back)) => reader = back,
                    Ok(None) => return Ok(()),
                    Err(status) => return Err(status),
                }
            }
            Ok(Taken::Last(line)) => {
                return run_last_task(alloc, desk, views, files, input, out, reader, line);
            }
            Err(error) => return Err(Status::from(error)),
        }
    }
}

// Runs a line with its body, and gives the reader back if the script goes on behind it.
fn run_task<F: Files, S: Source, K: Sink>(
    alloc: Global,
    desk: &mut Desk,
    views: &mut [Option<Box<dyn TreeView>>],
    files: &mut F,
    input: &mut S,
    out: &mut K,
    reader: LineReader,
    line: Line,
) -> Result<Option<LineReader>, Status>
    requires sound { DeskSound desk.old (F.seen files.old) }
    requires order { IsSoundLine line.order }
    requires client { IfSome line.client (λ client. client < 4) }
    requires within { reader.used ≤ longest_script }
    requires few { length reader.unread ≤ piece_len }
    ensures done { IfOk result (λ back. (d : PlainDesk) (first : Views) (most : ℕ → ℕ) (ahead : List ℕ) → Lives desk.old (around (F.seen files.old) first most (meanings (λ b. rows b) (λ b. told b) views.old)) d → before reader.unread (S.left input.old) ≡ Some ahead → LineDone line d ahead reader.used desk.new (around (F.seen files.new) first most (meanings (λ b. rows b) (λ b. told b) views.new)) back (S.left input.new) (K.taken out.old) (K.taken out.new) (F.asked files.old) (F.asked files.new)) }
    ensures halts { IfErr result (λ status. (d : PlainDesk) (first : Views) (most : ℕ → ℕ) (ahead : List ℕ) → Lives desk.old (around (F.seen files.old) first most (meanings (λ b. rows b) (λ b. told b) views.old)) d → before reader.unread (S.left input.old) ≡ Some ahead → Halts status (around (F.seen files.new) first most (meanings (λ b. rows b) (λ b. told b) views.new)) line d ahead reader.used (S.left input.new) (K.taken out.old) (K.taken out.new) (F.asked files.old) (F.asked files.new)) }
    ensures goes_on { IfOk result (λ back. IfSome back (λ later. GoneOn reader (S.budget input.old) later (S.budget input.new))) }
    ensures falls { S.budget input.new ≤ S.budget input.old }
    ensures none_lost { NoneLost (K.taken out.old) (K.taken out.new) }
    ensures number { length views.new ≡ length views.old }
    ensures kept { Kept (order_writes line.order) desk.new (F.seen files.old) (F.seen files.new) (counts (F.faults files.old) (S.faults input.old) (K.faults out.old)) (counts (F.faults files.new) (S.faults input.new) (K.faults out.new)) (S.budget input.old + (reader.used + length reader.unread)) (S.budget input.new) (result_err result) }
{
    if let Some(word) = body_word(&line.order) {
        match run_body(alloc, desk, views, files, input, out, reader, &line, word) {
            Ok(Some(later)) => return Ok(Some(later)),
            Ok(None) => {}
            Err(status) => return Err(status),
        }
        match run_end(alloc, desk, views, files, out) {
            Ok(()) => return Ok(None),
            Err(status) => return Err(status),
        }
    }
    match run_line(alloc, desk, views, files, out, line) {
        Ok(true) => Ok(None),
        Ok(false) => Ok(Some(reader)),
        Err(status) => Err(status),
    }
}

// The end of the input stands for `quit` of the one client. At a desk of four it says nothing.
fn run_end<F: Files, K: Sink>(
    alloc: Global,
    desk: &mut Desk,
    views: &mut [Option<Box<dyn TreeView>>],
    files: &mut F,
    out: &mut K,
) -> Result<(), Status>
    requires sound { DeskSound desk.old (F.seen files.old) }
    ensures done { OnOk result ((d : PlainDesk) (first : Views) (most : ℕ → ℕ) → Lives desk.old (around (F.seen files.old) first most (meanings (λ b. rows b) (λ b. told b) views.old)) d → Done (Lives desk.new (told_more (around (F.seen files.new) first most (meanings (λ b. rows b) (λ b. told b) views.new)) (told_all d (added d.clients.tagged)))) (after_all desks d (added d.clients.tagged)) (run desks d (added d.clients.tagged)) (K.taken out.old) (K.taken out.new)) }
    ensures stops { IfErr result (λ status. (d : PlainDesk) (first : Views) (most : ℕ → ℕ) → Lives desk.old (around (F.seen files.old) first most (meanings (λ b. rows b) (λ b. told b) views.old)) d → Stops status (around (F.seen files.new) first most (meanings (λ b. rows b) (λ b. told b) views.new)) d (added d.clients.tagged) (K.taken out.old) (K.taken out.new)) }
    ensures asks { (d : PlainDesk) (first : Views) (most : ℕ → ℕ) → Lives desk.old (around (F.seen files.old) first most (meanings (λ b. rows b) (λ b. told b) views.old)) d → F.asked files.new ≤ F.asked files.old + price_all d (added d.clients.tagged) }
    ensures none_lost { NoneLost (K.taken out.old) (K.taken out.new) }
    ensures number { length views.new ≡ length views.old }
    ensures kept { Kept false desk.new (F.seen files.old) (F.seen files.new) (counts (F.faults files.old) 0 (K.faults out.old)) (counts (F.faults files.new) 0 (K.faults out.new)) 0 0 (result_err result) }
{
    if desk.clients().is_tagged() {
        return Ok(());
    }
    let quit = Line {
        client: Some(0),
        order: Ok(Command::Quit),
    };
    match run_line(alloc, desk, views, files, out, quit) {
        Ok(_) => Ok(()),
        Err(status) => Err(status),
    }
}

// Runs the last line of a script, which no line feed ends, with its body, in which there is nothing.
fn run_last_task<F: Files, S: Source, K: Sink>(
    alloc: Global,
    desk: &mut Desk,
    views: &mut [Option<Box<dyn TreeView>>],
    files: &mut F,
    input: &mut S,
    out: &mut K,
    reader: LineReader,
    line: Line,
) -> Result<(), Status>
    requires sound { DeskSound desk.old (F.seen files.old) }
    requires order { IsSoundLine line.order }
    requires client { IfSome line.client (λ client. client < 4) }
    requires within { reader.used ≤ longest_script }
    requires few { length reader.unread ≤ piece_len }
    ensures done { OnOk result ((d : PlainDesk) (first : Views) (most : ℕ → ℕ) → Lives desk.old (around (F.seen files.old) first most (meanings (λ b. rows b) (λ b. told b) views.old)) d → before reader.unread (S.left input.old) ≡ Some [] → LastDid line d desk.new (around (F.seen files.new) first most (meanings (λ b. rows b) (λ b. told b) views.new)) (S.left input.new) (K.taken out.old) (K.taken out.new)) }
    ensures halts { IfErr result (λ status. (d : PlainDesk) (first : Views) (most : ℕ → ℕ) → Lives desk.old (around (F.seen files.old) first most (meanings (λ b. rows b) (λ b. told b) views.old)) d → before reader.unread (S.left input.old) ≡ Some [] → LastHalts status (around (F.seen files.new) first most (meanings (λ b. rows b) (λ b. told b) views.new)) line d (S.left input.new) (K.taken out.old) (K.taken out.new)) }
    ensures asks { (d : PlainDesk) (first : Views) (most : ℕ → ℕ) → Lives desk.old (around (F.seen files.old) first most (meanings (λ b. rows b) (λ b. told b) views.old)) d → before reader.unread (S.left input.old) ≡ Some [] → F.asked files.new ≤ F.asked files.old + price_all d (last_tasks d line) }
    ensures falls { S.budget input.new ≤ S.budget input.old }
    ensures none_lost { NoneLost (K.taken out.old) (K.taken out.new) }
    ensures number { length views.new ≡ length views.old }
    ensures kept { Kept (order_writes line.order) desk.new (F.seen files.old) (F.seen files.new) (counts (F.faults files.old) (S.faults input.old) (K.faults out.old)) (counts (F.faults files.new) (S.faults input.new) (K.faults out.new)) (S.budget input.old + (reader.used + length reader.unread)) (S.budget input.new) (result_err result) }
{
    if body_word(&line.order).is_none() {
        return run_last(alloc, desk, views, files, out, line);
    }
    match run_task(alloc, desk, views, files, input, out, reader, line) {
        Ok(None) => return Ok(()),
        Ok(Some(_)) => {}
        Err(status) => return Err(status),
    }
    run_end(alloc, desk, views, files, out)
}

// Runs a command that has a body, which ends at the line of this word, and gives the reader back if such a line ended it; else the
// input did.
fn run_body<F: Files, S: Source, K: Sink>(
    alloc: Global,
    desk: &mut Desk,
    views: &mut [Option<Box<dyn TreeView>>],
    files: &mut F,
    input: &mut S,
    out: &mut K,
    reader: LineReader,
    line: &Line,
    word: &Text,
) -> Result<Option<LineReader>, Status>
    requires sound { DeskSound desk.old (F.seen files.old) }
    requires order { IsSoundLine line.now.order }
    requires client { IfSome line.now.client (λ client. client < 4) }
    requires word { body_word line.now.order ≡ Some word.now }
    requires within { reader.used ≤ longest_script }
    ensures done { IfOk result (λ back. (d : PlainDesk) (first : Views) (most : ℕ → ℕ) (ahead : List ℕ) → Lives desk.old (around (F.seen files.old) first most (meanings (λ b. rows b) (λ b. told b) views.old)) d → before reader.unread (S.left input.old) ≡ Some ahead → BodyDone line.now d ahead reader.used desk.new (around (F.seen files.new) first most (meanings (λ b. rows b) (λ b. told b) views.new)) back (S.left input.new) (K.taken out.old) (K.taken out.new) (F.asked files.old) (F.asked files.new)) }
    ensures halts { IfErr result (λ status. (d : PlainDesk) (first : Views) (most : ℕ → ℕ) (ahead : List ℕ) → Lives desk.old (around (F.seen files.old) first most (meanings (λ b. rows b) (λ b. told b) views.old)) d → before reader.unread (S.left input.old) ≡ Some ahead → Halts status (around (F.seen files.new) first most (meanings (λ b. rows b) (λ b. told b) views.new)) line.now d ahead reader.used (S.left input.new) (K.taken out.old) (K.taken out.new) (F.asked files.old) (F.asked files.new)) }
    ensures goes_on { IfOk result (λ back. IfSome back (λ later. GoneOn reader (S.budget input.old) later (S.budget input.new))) }
    ensures falls { S.budget input.new ≤ S.budget input.old }
    ensures none_lost { NoneLost (K.taken out.old) (K.taken out.new) }
    ensures number { length views.new ≡ length views.old }
    ensures kept { Kept (order_writes line.now.order) desk.new (F.seen files.old) (F.seen files.new) (counts (F.faults files.old) (S.faults input.old) (K.faults out.old)) (counts (F.faults files.new) (S.faults input.new) (K.faults out.new)) (S.budget input.old + (reader.used + length reader.unread)) (S.budget input.new) (result_err result) }
{
    let Ok(mut place) = Place::new(alloc, reader, word.as_bytes()) else {
        return Err(Status::Memory);
    };
    if let Err(halt) = serve_in::<Brand, F, S, K>(
        alloc, desk, views, files, input, out, &mut place, line,
    ) {
        return Err(broken(&place, halt));
    }
    if let Err(Failed) = place.drain(input) {
        return Err(broken(&place, Halt::Device(Stop::Read)));
    }
    Ok(reader_behind(place))
}

// The reader behind a body that a line ended; none if the input did.
fn reader_behind(place: Place) -> Option<LineReader>
    ensures behind { result ≡ behind_at place.at place.reader }
{
    match place.at() {
        At::Behind(_) => Some(place.into_reader()),
        _ => None,
    }
}

// Runs a command over its body.
fn serve_in<B: Begins, F: Files, S: Source, K: Sink>(
    alloc: Global,
    desk: &mut Desk,
    views: &mut [Option<Box<dyn TreeView>>],
    files: &mut F,
    input: &mut S,
    out: &mut K,
    place: &mut Place,
    line: &Line,
) -> Result<(), Halt>
    requires sound { DeskSound desk.old (F.seen files.old) }
    requires order { IsSoundLine line.now.order }
    requires client { IfSome line.now.client (λ client. client < 4) }
    requires begins { Standing B.start place.old (S.left input.old) (S.budget input.old) (S.faults input.old) }
    ensures serves { (d : PlainDesk) (first : Views) (most : ℕ → ℕ) (text : List ℕ) → Lives desk.old (around (F.seen files.old) first most (meanings (λ b. rows b) (λ b. told b) views.old)) d → left_of place.old (S.left input.old) ≡ Some text → Serves desks (Lives desk.new (told_more (around (F.seen files.new) first most (meanings (λ b. rows b) (λ b. told b) views.new)) (line_told d (tagged_task line.now text)))) BrokenLine d (tagged_task line.now text) (K.taken out.old) (K.taken out.new) result }
    ensures left { (d : PlainDesk) (first : Views) (most : ℕ → ℕ) (text : List ℕ) → Lives desk.old (around (F.seen files.old) first most (meanings (λ b. rows b) (λ b. told b) views.old)) d → left_of place.old (S.left input.old) ≡ Some text → IfErr result (λ _. AreLeftBy (around (F.seen files.new) first most (meanings (λ b. rows b) (λ b. told b) views.new)) d line.now) }
    ensures stands { Standing B.start place.new (S.left input.new) (S.budget input.new) (S.faults input.new) }
    ensures sound { OnOk result (DeskSound desk.new (F.seen files.new)) }
    ensures carries { (d : PlainDesk) (first : Views) (most : ℕ → ℕ) (text : List ℕ) → Lives desk.old (around (F.seen files.old) first most (meanings (λ b. rows b) (λ b. told b) views.old)) d → left_of place.old (S.left input.old) ≡ Some text → IfErr result (λ _. StillCarry (F.seen files.new) (seen_by d 0) (line_left d line.now)) }
    ensures unchanged { order_writes line.now.order ≡ false → F.seen files.new ≡ F.seen files.old }
    ensures choices { (F.seen files.new).choices ≡ (F.seen files.old).choices }
    ensures asks { (d : PlainDesk) (first : Views) (most : ℕ → ℕ) → Lives desk.old (around (F.seen files.old) first most (meanings (λ b. rows b) (λ b. told b) views.old)) d → F.asked files.new ≤ F.asked files.old + line_price d line.now }
    ensures none_lost { NoneLost (K.taken out.old) (K.taken out.new) }
    ensures number { length views.new ≡ length views.old }
    ensures causes { Causes WhyHalt result (counts (F.faults files.old) place.old.refused (K.faults out.old)) (counts (F.faults files.new) place.new.refused (K.faults out.new)) }
{
    let mut body: Body<'_, S, B> = Body::new(input, place);
    serve(alloc, desk, views, files, &mut body, out, line)
}

// How a command ends that was broken off with its body at this place.
fn broken(place: &Place, halt: Halt) -> Status
    ensures status { result ≡ status_in_body halt place.now.stuck }
{
    match place.stuck() {
        Some(error) if halt == Halt::Device(Stop::Read) => Status::from(error),
        _ => Status::from(halt),
    }
}

// Runs the last line of a script, which no line feed ends, and then its end unless it is `quit`.
fn run_last<F: Files, K: Sink>(
    alloc: Global,
    desk: &mut Desk,
    views: &mut [Option<Box<dyn TreeView>>],
    files: &mut F,
    out: &mut K,
    line: Line,
) -> Result<(), Status>
    requires sound { DeskSound desk.old (F.seen files.old) }
    requires order { IsSoundLine line.order }
    requires client { IfSome line.client (λ client. client < 4) }
    requires alone { body_word line.order ≡ None }
    ensures done { OnOk result ((d : PlainDesk) (first : Views) (most : ℕ → ℕ) → Lives desk.old (around (F.seen files.old) first most (meanings (λ b. rows b) (λ b. told b) views.old)) d → Done (Lives desk.new (told_more (around (F.seen files.new) first most (meanings (λ b. rows b) (λ b. told b) views.new)) (told_all d (last_tasks d line)))) (after_all desks d (last_tasks d line)) (run desks d (last_tasks d line)) (K.taken out.old) (K.taken out.new)) }
    ensures stops { IfErr result (λ status. (d : PlainDesk) (first : Views) (most : ℕ → ℕ) → Lives desk.old (around (F.seen files.old) first most (meanings (λ b. rows b) (λ b. told b) views.old)) d → Stops status (around (F.seen files.new) first most (meanings (λ b. rows b) (λ b. told b) views.new)) d (last_tasks d line) (K.taken out.old) (K.taken out.new)) }
    ensures asks { (d : PlainDesk) (first : Views) (most : ℕ → ℕ) → Lives desk.old (around (F.seen files.old) first most (meanings (λ b. rows b) (λ b. told b) views.old)) d → F.asked files.new ≤ F.asked files.old + price_all d (last_tasks d line) }
    ensures none_lost { NoneLost (K.taken out.old) (K.taken out.new) }
    ensures number { length views.new ≡ length views.old }
    ensures kept { Kept (order_writes line.order) desk.new (F.seen files.old) (F.seen files.new) (counts (F.faults files.old) 0 (K.faults out.old)) (counts (F.faults files.new) 0 (K.faults out.new)) 0 0 (result_err result) }
{
    let quit = is_quit(&line.order);
    match run_line(alloc, desk, views, files, out, line) {
        Ok(_) => {}
        Err(status) => return Err(status),
    }
    if quit {
        return Ok(());
    }
    run_end(alloc, desk, views, files, out)
}

// Runs one line, and tells whether it ended the script.
fn run_line<F: Files, K: Sink>(
    alloc: Global,
    desk: &mut Desk,
    views: &mut [Option<Box<dyn TreeView>>],
    files: &mut F,
    out: &mut K,
    line: Line,
) -> Result<bool, Status>
    requires sound { DeskSound desk.old (F.seen files.old) }
    requires order { IsSoundLine line.order }
    requires client { IfSome line.client (λ client. client < 4) }
    requires alone { body_word line.order ≡ None }
    ensures done { OnOk result ((d : PlainDesk) (first : Views) (most : ℕ → ℕ) → Lives desk.old (around (F.seen files.old) first most (meanings (λ b. rows b) (λ b. told b) views.old)) d → Done (Lives desk.new (told_more (around (F.seen files.new) first most (meanings (λ b. rows b) (λ b. told b) views.new)) (line_told d (tagged_task line [])))) (desks.after d (tagged_task line [])) (desks.text d (tagged_task line [])) (K.taken out.old) (K.taken out.new)) }
    ensures end { IfOk result (λ end. end ≡ is_end desk.old.clients line) }
    ensures interrupted { IfErr result (λ status. (d : PlainDesk) (first : Views) (most : ℕ → ℕ) → Lives desk.old (around (F.seen files.old) first most (meanings (λ b. rows b) (λ b. told b) views.old)) d → Interrupted status (around (F.seen files.new) first most (meanings (λ b. rows b) (λ b. told b) views.new)) d (tagged_task line []) (K.taken out.old) (K.taken out.new)) }
    ensures asks { (d : PlainDesk) (first : Views) (most : ℕ → ℕ) → Lives desk.old (around (F.seen files.old) first most (meanings (λ b. rows b) (λ b. told b) views.old)) d → F.asked files.new ≤ F.asked files.old + line_price d line }
    ensures none_lost { NoneLost (K.taken out.old) (K.taken out.new) }
    ensures number { length views.new ≡ length views.old }
    ensures kept { Kept (order_writes line.order) desk.new (F.seen files.old) (F.seen files.new) (counts (F.faults files.old) 0 (K.faults out.old)) (counts (F.faults files.new) 0 (K.faults out.new)) 0 0 (result_err result) }
{
    let end = desk.clients().is_end(&line);
    match serve(alloc, desk, views, files, &mut NoBody, out, &line) {
        Ok(()) => Ok(end),
        Err(halt) => Err(Status::from(halt)),
    }
}
