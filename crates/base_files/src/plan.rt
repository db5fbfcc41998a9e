//! Faults that are planned by the numbers of the calls.
ghost use Rattle.std.specs.Prelude.{◌≡◌, ◌≤◌, [], MatchResult};
ghost use Rattle.base_files.specs.Planned.{Calls, Served, FailedAsPlanned, passed, failed};

use crate::faults::Failed;
use std::marker::Model;

/// The calls of an object in memory: which are to fail, and how many calls and faults there were.
/// Both counts stand still at the greatest u64.
#[derive(Drop)]
pub struct Plan {
    fails: Vec<u64>,
    made: u64,
    faults: u64,
}

impl Model for Plan {
    ghost use Rattle.base_files.specs.Planned.{Calls};

    ghost Value = { Calls };

    ghost view = { λ plan. record { planned = plan.fails.items; made = plan.made; faults = plan.faults } };
}

impl Plan {
    /// No call was made yet; those of these numbers are to fail, counted from 0.
    pub fn new(fails: Vec<u64>) -> Plan
        ensures { result ≡ record { planned = fails.items; made = 0; faults = 0 } }
    {
        Plan {
            fails,
            made: 0,
            faults: 0,
        }
    }

    /// How many calls were made.
    pub fn made(&self) -> u64
        ensures { result ≡ self.now.made }
    {
        self.made
    }

    /// Counts a call, and its fault if it is to fail.
    pub fn begin(&mut self) -> Result<(), Failed>
        ensures planned { MatchResult result (λ _. Served self.old self.new) (λ _. FailedAsPlanned self.old self.new) }
        ensures counts { self.old.faults ≤ self.new.faults }
    {
        if self.fails.contains(&self.made) {
            self.fail();
            Err(Failed)
        } else {
            self.pass();
            Ok(())
        }
    }

    /// Counts a call.
    pub fn pass(&mut self)
        ensures { self.new ≡ passed self.old }
    {
        self.made = self.made.saturating_add(1);
    }

    /// Counts a call and a fault.
    pub fn fail(&mut self)
        ensures after { self.new ≡ failed self.old }
        ensures counts { self.old.faults ≤ self.new.faults }
    {
        self.made = self.made.saturating_add(1);
        self.faults = self.faults.saturating_add(1);
    }
}
