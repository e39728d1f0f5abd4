//! A count of failures that only contracts read.
ghost use Rattle.std.specs.Prelude.{◌≡◌, ℕ, ◌+◌};
ghost use Rattle.std.specs.Borrow.{ftrue};

use std::marker::Model;

/// How many calls have failed, as ghost state. It occupies no memory, so it counts without a bound.
#[derive(Drop)]
pub struct Failures {
    pub ghost count: { ℕ },
}

impl Model for Failures {
    ghost also_owns = { λ _. ftrue };
}

impl Failures {
    /// No failure so far.
    pub fn none() -> Failures
        ensures { result.count ≡ 0 }
    {
        Failures {}
    }

    /// Counts one more failure.
    pub fn add_one(&mut self)
        ensures { self.new.count ≡ self.old.count + 1 }
    {}
}
