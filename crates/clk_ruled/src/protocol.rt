//! The rule of a shared queue, and the kinds of step that keep it.

use crate::view::View;
use clk_packet::Packet;
use crossbeam_queue::protocol::{Join, Lesson, Outcome, Protocol, Split};
use std::marker::{Brand, PhantomData};

/// The protocol of a shared queue: every step keeps its account.
pub struct QueueAccount;

impl Protocol<Packet, View> for QueueAccount {
    ghost use Rattle.clk_ruled.specs.Rule.{Keeps};
    ghost use Rattle.clk_ruled.specs.inside.Rule.{blank_view};

    ghost holds = { Keeps };

    ghost first = { blank_view };
}

// What a queue is opened with. A call at `Brand` picks it.
pub trait Opening {
    ghost use Rattle.clk_ruled.specs.declared.view.QueueSetup.{QueueSetup};

    ghost setup: { QueueSetup };
}

impl Opening for Brand {
    ghost use Rattle.clk_ruled.specs.inside.Rule.{no_setup};

    ghost setup = { no_setup };
}

// The sender that a seat is given. A call at `Brand` picks it.
pub trait Sending {
    ghost use Rattle.std.specs.Prelude.{ℕ};

    ghost sender: { ℕ };
}

impl Sending for Brand {
    ghost sender = { 0 };
}

/// The step that opens the queue: the tap's view has the setup from then on.
pub struct Open<O> {
    opening: PhantomData<O>,
}

impl<O: Opening> Split<View> for Open<O> {
    ghost use Rattle.std.specs.Prelude.{[]};
    ghost use Rattle.clk_ruled.specs.inside.Rule.{tap_view, spent_view};

    ghost left = { λ v. tap_view O.setup [] [] [] };

    ghost right = { λ v. spent_view };
}

/// The step that gives a sender its seat.
pub struct Seated<S> {
    sending: PhantomData<S>,
}

impl<S: Sending> Split<View> for Seated<S> {
    ghost use Rattle.std.specs.Prelude.{[], ◌∷◌};
    ghost use Rattle.clk_ruled.specs.inside.Rule.{tap_view, seat_view};

    ghost left = { λ v. tap_view v.setup v.taken (S.sender ∷ v.given) v.gathered };

    ghost right = { λ v. seat_view v.setup S.sender [] [] };
}

/// The step in which the queue accepts a packet from a seat.
pub struct Accept;

impl Outcome<Packet, View> for Accept {
    ghost use Rattle.std.specs.Prelude.{◌≡◌, [], ◌∷◌, ◌++◌};
    ghost use Rattle.clk_ruled.specs.inside.Rule.{seat_view};

    ghost then = { λ v p w. w ≡ seat_view v.setup v.sender (v.accepted ++ p ∷ []) v.evicted };
}

impl Lesson<Packet, View> for Accept {
    ghost use Rattle.clk_ruled.specs.inside.Rule.{Knows};

    ghost fact = { Knows };
}

/// The step in which the queue evicts the packet at its front for a seat.
pub struct Evict;

impl Outcome<Packet, View> for Evict {
    ghost use Rattle.std.specs.Prelude.{◌≡◌, [], ◌∷◌, ◌++◌};
    ghost use Rattle.clk_ruled.specs.inside.Rule.{seat_view, KnowsAfter};

    ghost then = { λ v p w. (w ≡ seat_view v.setup v.sender v.accepted (v.evicted ++ p ∷ [])) × KnowsAfter w };
}

/// The step in which the tap pulls the packet at the front.
pub struct Pull;

impl Outcome<Packet, View> for Pull {
    ghost use Rattle.std.specs.Prelude.{◌≡◌, [], ◌∷◌, ◌++◌};
    ghost use Rattle.clk_ruled.specs.inside.Rule.{tap_view, KnowsAfter};

    ghost then = { λ v p w. (w ≡ tap_view v.setup (v.taken ++ p ∷ []) v.given v.gathered) × KnowsAfter w };
}

impl Lesson<Packet, View> for Pull {
    ghost use Rattle.clk_ruled.specs.inside.Rule.{Knows};

    ghost fact = { Knows };
}

/// The step that gives a closed seat a pass that neither sits nor taps, and still has the setup.
pub struct Retire;

impl Split<View> for Retire {
    ghost use Rattle.clk_ruled.specs.inside.Rule.{retired_view};

    ghost left = { λ v. v };

    ghost right = { λ v. retired_view v.setup };
}

/// The step in which the tap takes over the lists of a closed seat. The seat's view is used no more.
pub struct Gather;

impl Join<View> for Gather {
    ghost use Rattle.std.specs.Prelude.{◌∷◌};
    ghost use Rattle.clk_ruled.specs.Rule.{gathered_seat};
    ghost use Rattle.clk_ruled.specs.inside.Rule.{tap_view, spent_view};

    ghost both = { λ v w. tap_view v.setup v.taken v.given (gathered_seat w.sender w.accepted w.evicted ∷ v.gathered) };

    ghost spent = { spent_view };
}
