//! Every visit of a session, as contracts see it.
ghost use Rattle.std.specs.Prelude.{◌≡◌, ℕ, ◌-◌, ◌++◌, List, [], ◌∷◌, length};
ghost use Rattle.std.specs.Borrow.{ftrue};
ghost use Rattle.clk_sched.specs.declared.visit.Visit.{Visit};

use crate::session::idle::IdleInputs;
use crate::visit::Visit;
use std::marker::Model;

/// Every visit of a session so far, as ghost state: it occupies no memory.
#[derive(Drop)]
pub struct AllVisits {
    /// All of them, in order.
    pub ghost items: { List Visit },
    /// For how many more visits there is room.
    pub ghost spare: { ℕ },
    /// How many of them were dropped.
    pub ghost gone: { ℕ },
    /// How many there were before the latest pull.
    pub ghost start: { ℕ },
}

impl Model for AllVisits {
    ghost also_owns = { λ _. ftrue };
}

impl AllVisits {
    ghost use Rattle.std.specs.Prelude.{◌<◌, ◌+◌, ◌^◌};
    ghost use Rattle.clk_sched.specs.inside.Logged.{idle_visits};

    /// No visits so far, and room for none.
    pub fn none() -> AllVisits
        ensures { result ≡ record { items = []; spare = 0; gone = 0; start = 0 } }
    {
        AllVisits {}
    }

    /// Adds a visit.
    pub fn push(&mut self, visit: &Visit)
        ensures { self.new ≡ record { items = self.old.items ++ visit.now ∷ []; spare = self.old.spare - 1; gone = self.old.gone; start = self.old.start } }
    {}

    /// Adds the visits of inputs that gave nothing.
    // The loop compiles to nothing.
    #[inline]
    pub fn push_idle(&mut self, idle: &IdleInputs)
        requires { idle.now.first + idle.now.count < 2 ^ 16 }
        ensures { self.new ≡ record { items = self.old.items ++ idle_visits idle.now; spare = self.old.spare - idle.now.count; gone = self.old.gone; start = self.old.start } }
    {
        for place in 0..idle.count {
            self.push(&idle.visit(place));
        }
    }

    /// Adds visits that no code holds.
    pub fn push_all(&mut self)
        ghost visits: { List Visit }
        ensures { self.new ≡ record { items = self.old.items ++ visits; spare = self.old.spare - length visits; gone = self.old.gone; start = self.old.start } }
    {}

    /// Begins a pull, with room for so many visits.
    pub fn begin(&mut self, visits: &usize)
        ensures { self.new ≡ record { items = self.old.items; spare = visits.now; gone = self.old.gone; start = length self.old.items } }
    {}

    /// Marks all visits so far as dropped. Contracts still speak of them.
    pub fn let_go(&mut self)
        ensures { self.new ≡ record { items = self.old.items; spare = self.old.spare; gone = length self.old.items; start = self.old.start } }
    {}
}
