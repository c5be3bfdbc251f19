//! The calls of an input or output in memory, and which of them fail.

ghost use Rattle.std.specs.Prelude.{◌≡◌, MatchBool};
ghost use Rattle.js_process.specs.Memory.{no_calls, next_fails, after_call};
ghost use Rattle.js_process.specs.Outside.{Rises};

use std::marker::Model;

/// Counts calls, and fails those whose numbers, from 0, are listed.
#[derive(Drop)]
pub struct FailingCalls<'b> {
    failing: &'b [u64],
    next: u64,
    faults: u64,
}

impl<'b> Model for FailingCalls<'b> {
    ghost use Rattle.js_process.specs.Memory.{Calls};

    ghost Value = { Calls };

    ghost view = { λ c. record { failing = c.failing.now; next = c.next; faults = c.faults } };
}

impl<'b> FailingCalls<'b> {
    /// No call was made yet; those whose numbers are listed will fail.
    pub fn new(failing: &'b [u64]) -> FailingCalls<'b>
        ensures { result ≡ no_calls failing.now }
    {
        FailingCalls {
            failing,
            next: 0,
            faults: 0,
        }
    }

    /// How many calls have failed.
    pub fn faults(&self) -> u64
        ensures { result ≡ self.now.faults }
    {
        self.faults
    }

    /// Counts a call, and tells whether it fails.
    pub fn count_call(&mut self) -> bool
        ensures fails { result ≡ next_fails self.old }
        ensures counted { self.new ≡ after_call self.old }
        ensures faults { MatchBool result (Rises self.old.faults self.new.faults) (self.new.faults ≡ self.old.faults) }
    {
        let fails = self.failing.contains(&self.next);
        self.next = self.next.saturating_add(1);
        if fails {
            self.faults = self.faults.saturating_add(1);
        }
        fails
    }
}
