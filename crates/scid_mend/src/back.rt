//! `scid_mend --back BASE`: puts right what a run left beside a base that was broken off.
use crate::printed;
use crate::status::Status;
use std_devices::{Righted, put_right};

/// Puts a base right, and says on standard output what became of it.
pub fn put_back(rt: &HostRuntime, base: &str) -> Status {
    match put_right(rt.alloc(), rt, base) {
        Ok(righted) => printed(println!(rt; "{}", line_of(righted))),
        Err(error) => Status::of_files(error),
    }
}

// The line on standard output.
fn line_of(righted: Righted) -> &'static str {
    match righted {
        Righted::Whole => "whole: nothing is to be put right",
        Righted::PutBack => "put back: the base is the one before the compact that was broken off",
        Righted::Finished => "finished: the base is the one that the compact left",
        Righted::TakenAway =>
            "taken away: the new files of a run that was broken off; the base is as it was",
    }
}
