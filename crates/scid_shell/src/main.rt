//! `scid_shell [--create] [--strict] [--desk] BASE`: runs the script on standard input over a Scid base, and writes its text on standard output.
#![tactic(auto)]

ghost use Rattle.std.specs.Prelude.{◌≡◌, ◌≢◌, ◌≤◌, MatchResult, false, length};
ghost use Rattle.base_files.specs.Causes.{output_stop};
ghost use Rattle.session_status.specs.Stops.{status_of};
ghost use Rattle.session_status.specs.declared.status.Status.TheVariants as done;

mod messages;

use base_files::DeviceError;
use messages::{CREATE, HELP, NO_ENDING, VERSION, message};
use shell_session::{Status, session};
use std::alloc::AllocError;
use std::io::{ErrorKind, IsTerminal, Stdout};
use std::process::ExitCode;
use std::{env, fs, io};
use std_devices::{
    AfterText, DiskFiles, Shown, StdSink, StdSource, TextOut, hold_standard_streams,
};
use tree_live::{TableView, TreeView};
use watched_devices::{ProgressLine, Watched};

fn main(rt: HostRuntime) -> ExitCode {
    hold_standard_streams(&rt);
    match words(&rt) {
        Ok(words) => answer(&rt, words.as_slice()),
        Err(status) => end(&rt, status),
    }
}

/// The words after the program's name. A word that is no text is a faulty command line.
fn words(rt: &HostRuntime) -> Result<Vec<String>, Status> {
    match env::args(rt) {
        Ok(args) => args.skip(1).collect(rt.alloc()).map_err(|_| Status::Memory),
        Err(error) if error.kind() == ErrorKind::OutOfMemory => Err(Status::Memory),
        Err(_) => Err(Status::Usage),
    }
}

/// Answers the single words `--help` and `--version`, and runs the session for all others.
fn answer(rt: &HostRuntime, words: &[String]) -> ExitCode {
    match words {
        [word] if word.as_str() == "--help" => end(rt, printed(print!(rt; "{HELP}"))),
        [word] if word.as_str() == "--version" => end(rt, printed(print!(rt; "{VERSION}"))),
        _ => {
            let status = run(rt, words).unwrap_or(Status::Memory);
            if let Status::FilesFault = status {
                advise(rt, words);
            }
            end(rt, status)
        }
    }
}

/// Says what to type if the base has the name of a file, or is not there.
fn advise(rt: &HostRuntime, words: &[String]) {
    let Some(base) = words.iter().find(|word| !word.starts_with("--")) else {
        return;
    };
    let _ = match base.strip_suffix(".si4") {
        Some(name) => {
            let name = Shown::new(name, rt.stderr().is_terminal());
            eprintln!(rt; "{NO_ENDING}{name}")
        }
        None if is_absent(rt, base) => eprintln!(rt; "{CREATE}"),
        None => Ok(()),
    };
}

/// Whether there is no index of this base, nor one that was set aside.
fn is_absent(rt: &HostRuntime, base: &str) -> bool {
    is_no_file(rt, base, ".si4") && is_no_file(rt, base, ".si4.old")
}

/// Whether there is no file of this base with this ending.
fn is_no_file(rt: &HostRuntime, base: &str, ending: &str) -> bool {
    match format!(in rt.alloc(); "{base}{ending}") {
        Ok(path) => matches!(fs::exists(rt, path.as_str()), Ok(false)),
        Err(_) => false,
    }
}

/// The status after a text was printed.
fn printed(outcome: io::Result<()>) -> Status
    ensures printed { MatchResult outcome (λ _. result ≡ done.Done) (λ _. result ≡ done.WriteFault) }
{
    match outcome {
        Ok(()) => Status::Done,
        Err(_) => Status::WriteFault,
    }
}

/// Runs the session over eight slots, each with a view in memory.
fn run(rt: &HostRuntime, words: &[String]) -> Result<Status, AllocError> {
    let mut views: Vec<Option<Box<dyn TreeView>>> = Vec::new(rt.alloc());
    for _slot in 0..8u8 {
        let view: Box<dyn TreeView> = Box::new(
            rt.alloc(),
            TableView::new(Vec::new(rt.alloc()), None),
        )?;
        views.push(Some(view))?;
    }
    let Ok(text) = text_out(rt) else {
        return Ok(Status::Memory);
    };
    Ok(run_over(rt, words, &text, &mut views))
}

/// The standard output. On a terminal each text stands at once, so that what is said there of how far the run is can't come between.
fn text_out(rt: &HostRuntime) -> io::Result<TextOut<Stdout>> {
    if rt.stdout().is_terminal() {
        TextOut::at_once(rt.alloc(), rt.stdout())
    } else {
        TextOut::new(rt.alloc(), rt.stdout())
    }
}

/// Runs the session over the real files and streams, and says how far it is.
fn run_over(
    rt: &HostRuntime,
    words: &[String],
    text: &TextOut<Stdout>,
    views: &mut Vec<Option<Box<dyn TreeView>>>,
) -> Status
    requires few { length views.old.items ≤ 8 }
{
    let line = ProgressLine::new(rt);
    let files = AfterText::new(DiskFiles::new(rt.alloc(), rt), text);
    let mut files = Watched::new(files, &line);
    let input = StdSource::new(AfterText::new(rt.stdin(), text));
    let mut input = Watched::new(input, &line);
    let mut out = Watched::new(StdSink::new(text), &line);
    let status = session(rt.alloc(), words, &mut files, &mut input, &mut out, views);
    files.into_device().into_device().close();
    let outcome = out.into_device().flush();
    line.clear();
    flushed(read_so_far(status, text.is_unread()), outcome)
}

/// The status of a session after all that it read: the session is done with that if its input was not read on, since its text could
/// not be handed on. That fault is told when the last bytes are handed on.
fn read_so_far(status: Status, is_unread: bool) -> Status
    ensures kept { status ≢ done.ReadFault → result ≡ status }
    ensures read { is_unread ≡ false → result ≡ status }
{
    match status {
        Status::ReadFault => {
            if is_unread {
                Status::Done
            } else {
                Status::ReadFault
            }
        }
        _ => status,
    }
}

/// The status of a session whose last bytes were then handed on. A fault at that is told if the session was done, and
/// else what ended the session.
fn flushed(status: Status, outcome: Result<(), DeviceError>) -> Status
    ensures kept { status ≢ done.Done → result ≡ status }
    ensures done { status ≡ done.Done → MatchResult outcome (λ _. result ≡ done.Done) (λ error. result ≡ status_of (output_stop error)) }
{
    match (status, outcome) {
        (Status::Done, Err(error)) => Status::from(error.of_output()),
        _ => status,
    }
}

/// Says on standard error how the session ended, unless it is done, and gives the exit code.
fn end(rt: &HostRuntime, status: Status) -> ExitCode {
    let line = message(&status);
    let _ = match status {
        Status::Done => Ok(()),
        Status::BadBase(fault) => eprintln!(rt; "{line}{fault}"),
        Status::Changed { game, .. } => eprintln!(rt; "{line}{game}"),
        _ => eprintln!(rt; "{line}"),
    };
    ExitCode::from(status.exit_code())
}
