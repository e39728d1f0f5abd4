//! Settling a live router on a thread that has its inlets too.

ghost use Rattle.std.specs.Prelude.{◌≡◌, length, map};
ghost use Rattle.std.specs.List.{AllZip};
ghost use Rattle.clk_inlet.specs.Halves.{pushed, popped, AreHalves};
ghost use Rattle.clk_live.specs.inside.Met.{HaveMet};

use crate::live::Live;
use clk_inlet::{Inlet, Outlet};

impl Live {
    ghost use Rattle.std.specs.Prelude.{true, false};
    ghost use Rattle.clk_inlet.specs.Halves.{offered};
    ghost use Rattle.clk_router.specs.Settled.{IsDrained};
    ghost use Rattle.clk_live.specs.State.{seen};
    ghost use Rattle.clk_live.specs.Outcome.{AreAllEnded, IsLiveOutcome};

    /// Whether all inlets have ended and all that was sent through them is taken, on a thread that has the inlets too. The inlets stand by
    /// the places of their senders, as [`open`](Live::open) returned them.
    pub fn has_taken_all(&mut self, inlets: &mut [Inlet]) -> bool
        requires halves { AllZip AreHalves inlets.old self.old.outlets }
        ensures ended { result ≡ true → AreAllEnded self.new.outlets }
        ensures taken { result ≡ true → (seen self.new).items ≡ map offered inlets.new }
        ensures no { result ≡ false → AreAllEnded self.old.outlets → ⊥ }
        ensures halves { AllZip AreHalves inlets.new self.new.outlets }
        ensures unchanged { (seen self.new ≡ seen self.old) × (self.new.turn ≡ self.old.turn) × (map pushed inlets.new ≡ map pushed inlets.old) }
    {
        if !self.is_ended() {
            return false;
        }
        look_beside(&mut self.outlets, inlets);
        true
    }

    /// Whether all inlets have ended and no packet is left inside, on a thread that has the inlets too. Then all that was sent through the
    /// inlets was taken, with its tokens, and is settled. The inlets stand by the places of their senders, as [`open`](Live::open)
    /// returned them.
    pub fn is_settled(&mut self, inlets: &mut [Inlet]) -> bool
        requires halves { AllZip AreHalves inlets.old self.old.outlets }
        ensures ended { result ≡ true → AreAllEnded self.new.outlets }
        ensures drained { result ≡ true → IsDrained self.new.course }
        ensures outcome { result ≡ true → IsLiveOutcome self.new.course (map offered inlets.new) }
        ensures taken { result ≡ true → (seen self.new).items ≡ map offered inlets.new }
        ensures no { result ≡ false → AreAllEnded self.old.outlets → IsDrained self.old.course → ⊥ }
        ensures halves { AllZip AreHalves inlets.new self.new.outlets }
        ensures unchanged { (seen self.new ≡ seen self.old) × (self.new.turn ≡ self.old.turn) × (map pushed inlets.new ≡ map pushed inlets.old) }
    {
        if !self.is_drained() {
            return false;
        }
        self.has_taken_all(inlets)
    }
}

// Looks at each ring from both of its halves.
fn look_beside(outlets: &mut Vec<Outlet>, inlets: &mut [Inlet])
    requires halves { AllZip AreHalves inlets.old outlets.old.items }
    ensures halves { AllZip AreHalves inlets.new outlets.new.items }
    ensures popped { map popped outlets.new.items ≡ map popped outlets.old.items }
    ensures pushed { map pushed inlets.new ≡ map pushed inlets.old }
    ensures met { AllZip HaveMet inlets.new outlets.new.items }
{
    let mut place = 0;
    while place < outlets.len() {
        outlets[place].beside(&mut inlets[place]);
        place += 1;
    }
}
