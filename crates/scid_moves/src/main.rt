//! `scid_moves`: answers each line of standard input, a FEN, with every legal move, its text and the position behind it.
#![tactic(auto)]

ghost use Rattle.std.specs.Prelude.{◌≡◌, IfErr, MatchResult};
ghost use Rattle.scid_moves.specs.Ends.{output_end};
ghost use Rattle.scid_moves.specs.declared.end.End.TheVariants as ended;

mod answer;
mod end;
mod messages;
mod serving;

use base_files::DeviceError;
use end::End;
use messages::{HELP, VERSION};
use serving::serve;
use std::io::ErrorKind;
use std::process::ExitCode;
use std::{env, io};
use std_devices::{StdSink, StdSource};

fn main(rt: HostRuntime) -> ExitCode {
    match words(&rt) {
        Ok(words) => told(&rt, run(&rt, words.as_slice())),
        Err(error) => told(&rt, Err(error)),
    }
}

/// The words after the program's name. A word that is no text is a faulty command line.
fn words(rt: &HostRuntime) -> Result<Vec<String>, End> {
    match env::args(rt) {
        Ok(args) => args.skip(1).collect(rt.alloc()).map_err(|_| End::Memory),
        Err(error) if error.kind() == ErrorKind::OutOfMemory => Err(End::Memory),
        Err(_) => Err(End::Usage),
    }
}

/// Answers the single words `--help` and `--version`, and without a word the lines of standard input.
fn run(rt: &HostRuntime, words: &[String]) -> Result<(), End> {
    match words {
        [] => answer_lines(rt),
        [word] if word.as_str() == "--help" => printed(print!(rt; "{HELP}")),
        [word] if word.as_str() == "--version" => printed(print!(rt; "{VERSION}")),
        _ => Err(End::Usage),
    }
}

/// How a run ends whose text was printed.
fn printed(outcome: io::Result<()>) -> Result<(), End>
    ensures printed { MatchResult outcome (λ _. result ≡ Ok tt) (λ _. result ≡ Err ended.WriteFault) }
{
    match outcome {
        Ok(()) => Ok(()),
        Err(_) => Err(End::WriteFault),
    }
}

/// Answers the lines of standard input, and hands on what the output holds back.
fn answer_lines(rt: &HostRuntime) -> Result<(), End> {
    let mut input = StdSource::new(rt.stdin());
    let mut out = StdSink::new(rt.stdout());
    let served = serve(rt.alloc(), &mut input, &mut out);
    let flushed = out.flush();
    served?;
    flushed.map_err(End::of_output)
}

/// Says on standard error how the run ended, unless it is done, and gives the exit code.
fn told(rt: &HostRuntime, outcome: Result<(), End>) -> ExitCode {
    match outcome {
        Ok(()) => ExitCode::from(0),
        Err(end) => {
            let line = end.line();
            let _ = eprintln!(rt; "{line}");
            ExitCode::from(end.exit_code())
        }
    }
}
