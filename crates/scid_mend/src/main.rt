//! `scid_mend [--fronts] [--loose] OLD NEW`: makes the Scid base NEW of every game of OLD that is whole, and says on standard output what becomes of the others.
#![tactic(auto)]

ghost use Rattle.std.specs.Prelude.{◌≡◌, MatchResult};
ghost use Rattle.scid_mend.specs.declared.status.Status.TheVariants as done;

mod absent;
mod back;
mod left_over;
mod messages;
mod printer;
mod status;

use absent::{Absent, PartFiles};
use back::put_back;
use base_files::Files;
use left_over::take_away_left_over;
use mend_base::{Faulty, Sought, mend};
use messages::{HELP, VERSION, message};
use printer::Printer;
use status::Status;
use std::io::{BufWriter, ErrorKind};
use std::process::ExitCode;
use std::{env, io};
use std_devices::{DiskFiles, hold_standard_streams};
use watched_devices::{ProgressLine, Watched};

/// The bytes of the longest record and of a block of the games file.
const BLOCK_LEN: usize = 131_072;

fn main(rt: HostRuntime) -> ExitCode {
    hold_standard_streams(&rt);
    match words(&rt) {
        Ok(words) => end(&rt, answer(&rt, words.as_slice())),
        Err(status) => end(&rt, status),
    }
}

/// The words after the program's name. A word that is no text is a faulty command line.
fn words(rt: &HostRuntime) -> Result<Vec<String>, Status> {
    match env::args(rt) {
        Ok(args) => args.skip(1).collect(rt.alloc()).map_err(|_| Status::Memory),
        Err(error) if error.kind() == ErrorKind::OutOfMemory => Err(Status::Memory),
        Err(_) => Err(Status::Usage),
    }
}

/// What is taken of a base besides the games whose records are whole.
#[derive(Clone, Copy)]
struct Taken {
    faulty: Faulty,
    search: Sought,
}

/// Answers the single words `--help` and `--version`, and mends for two names of bases.
fn answer(rt: &HostRuntime, words: &[String]) -> Status {
    match words {
        [word] if word.as_str() == "--help" => printed(print!(rt; "{HELP}")),
        [word] if word.as_str() == "--version" => printed(print!(rt; "{VERSION}")),
        [word, base] if word.as_str() == "--back" && is_name(base) => put_back(rt, base),
        _ => mend_by(rt, words),
    }
}

/// Mends for two names of bases, with the options in front of them.
fn mend_by(rt: &HostRuntime, words: &[String]) -> Status {
    let mut taken = Taken {
        faulty: Faulty::LeftOut,
        search: Sought::Entries,
    };
    for (place, word) in words.iter().enumerate() {
        match (word.as_str(), &words[place..]) {
            ("--fronts", _) => taken.faulty = Faulty::Fronts,
            ("--loose", _) => taken.search = Sought::Records,
            (_, [old, new]) if is_name(old) && is_name(new) => return run(rt, taken, old, new),
            _ => return Status::Usage,
        }
    }
    Status::Usage
}

/// Whether a word may be the name of a base.
fn is_name(word: &str) -> bool {
    !word.is_empty() && !word.starts_with('-')
}

/// The status after a text was printed.
fn printed(outcome: io::Result<()>) -> Status
    ensures printed { MatchResult outcome (λ _. result ≡ done.All) (λ _. result ≡ done.WriteFault) }
{
    match outcome {
        Ok(()) => Status::All,
        Err(_) => Status::WriteFault,
    }
}

/// Opens the old base, and mends it. If files of it are absent, they are as files of no bytes, and a message
/// tells it.
fn run(rt: &HostRuntime, taken: Taken, old: &str, new: &str) -> Status {
    let absent = match Absent::of_base(rt, old, taken.search) {
        Ok(absent) => absent,
        Err(status) => return status,
    };
    let line = ProgressLine::of_mending(rt);
    if absent.is_any() {
        let files = PartFiles::new(rt, absent);
        run_over(
            rt,
            taken,
            Watched::new(files, &line),
            old,
            new,
            absent,
            &line,
        )
    } else {
        let files = DiskFiles::of_faulty_base(rt.alloc(), rt);
        run_over(
            rt,
            taken,
            Watched::new(files, &line),
            old,
            new,
            absent,
            &line,
        )
    }
}

/// Makes the files of the new base, mends, and takes them away again where that fails.
fn run_over<F: Files + Drop>(
    rt: &HostRuntime,
    taken: Taken,
    mut old_files: F,
    old: &str,
    new: &str,
    absent: Absent,
    line: &ProgressLine<'_>,
) -> Status {
    if let Err(error) = old_files.choose(old, false) {
        return Status::of_files(error);
    }
    if let Err(status) = take_away_left_over(rt, old, new) {
        return status;
    }
    let mut new_files = Watched::new(DiskFiles::of_new_base(rt.alloc(), rt), line);
    let outcome = mend_files(rt, taken, &mut old_files, &mut new_files, new, absent, line);
    line.clear();
    let mut new_files = new_files.into_device();
    match outcome {
        Ok(status) => {
            new_files.close();
            status
        }
        Err(status) => {
            new_files.take_away();
            status
        }
    }
}

/// Mends the old base into the new one, and says how many games came over.
fn mend_files<F: Files, N: Files>(
    rt: &HostRuntime,
    taken: Taken,
    old: &mut F,
    new: &mut N,
    name: &str,
    absent: Absent,
    line: &ProgressLine<'_>,
) -> Result<Status, Status> {
    if let Err(error) = new.choose(name, false) {
        return Err(Status::of_files(error));
    }
    // From here on a lock says that a run is at work on these files.
    if let Err(error) = new.begin_new() {
        return Err(Status::of_files(error));
    }
    let Ok(mut buf) = vec![in rt.alloc(); 0u8; BLOCK_LEN] else {
        return Err(Status::Memory);
    };
    let Ok(writer) = BufWriter::new(rt.alloc(), io::writer(rt)) else {
        return Err(Status::Memory);
    };
    let mut printer = Printer::new(writer, line);
    if printer.tell_absent(absent).is_err() {
        return Err(Status::WriteFault);
    }
    match mend(
        rt.alloc(),
        taken.faulty,
        taken.search,
        old,
        new,
        &mut printer,
        buf.as_mut_slice(),
    ) {
        Ok(mended) => Ok(Status::of_mended(mended, printer.end(mended))),
        Err(error) => {
            let _ = printer.flush();
            Err(Status::from(error))
        }
    }
}

/// Says on standard error how the run ended, unless it is done, and gives the exit code.
fn end(rt: &HostRuntime, status: Status) -> ExitCode {
    let line = message(&status);
    let _ = match status {
        Status::All | Status::NotAll => Ok(()),
        Status::BadIndex(fault) => eprintln!(rt; "{line}{fault}"),
        Status::Full(what) => eprintln!(rt; "{line}{what}"),
        _ => eprintln!(rt; "{line}"),
    };
    ExitCode::from(status.exit_code())
}
