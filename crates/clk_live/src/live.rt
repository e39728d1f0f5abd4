//! The live router.

ghost use Rattle.std.specs.Prelude.{◌≡◌, ◌≤◌, true, false, length, map};
ghost use Rattle.clk_inlet.specs.Halves.{popped, taken};
ghost use Rattle.clk_inlet.specs.Items.{has_end, IsWhole};
ghost use Rattle.clk_router.specs.Settled.{IsDrained, IsCourseAccounted, AreOutOnce};
ghost use Rattle.clk_router.specs.InsideQueues.{AreOutOrInside};
ghost use Rattle.clk_router.specs.Events.{CanHappen};

use circular_buffer::HeapCircularBuffer;
use clk_inlet::Outlet;
use clk_router::CountingRouter;
use std::marker::Model;

/// A router with an inlet for each sender. It stays with the thread that takes and pulls; the inlets may go to other threads.
#[derive(Drop)]
pub struct Live {
    pub(crate) router: CountingRouter,
    // The outlet of each sender, at its place.
    pub(crate) outlets: Vec<Outlet>,
    // The tokens of the packets inside each queue, by the queue's number, the next to be emitted first.
    pub(crate) tokens: Vec<HeapCircularBuffer<u64>>,
    // The place at which the next round starts.
    pub(crate) turn: usize,
}

impl Model for Live {
    ghost use Rattle.clk_live.specs.State.{LiveState, live_code};
    ghost use Rattle.clk_live.specs.inside.Kept.{IsKept};
    ghost use Rattle.std.specs.Prelude.{map};
    ghost use Rattle.clk_inlet.specs.Halves.{taken};

    ghost Value = { LiveState };

    ghost coded = { live_code };

    ghost view = { λ l. record { course = l.router; outlets = l.outlets.items; turn = l.turn } };

    ghost invariant = { λ l. IsKept l.router (map taken l.outlets.items) l.tokens.items };
}

impl Live {
    ghost use Rattle.std.specs.List.{AllByRecursion};
    ghost use Rattle.clk_live.specs.Outcome.{AreAllOffered, AreAllEnded, AreAllWhole, IsLiveOutcome};

    /// The router, for calls that only read: its senders, devices, queues and moments, and the account of each sender.
    pub fn router(&self) -> &CountingRouter
        ensures course { result.now ≡ self.now.course }
        ensures places { length self.now.outlets ≡ length self.now.course.setup.senders }
    {
        &self.router
    }

    /// What has happened so far can happen. Each sender offered what was taken from its inlet, in order. Each offered packet is out of the
    /// router or inside it, once. A law, which does nothing.
    pub fn has_account(&self)
        ensures happened { CanHappen self.now.course.setup self.now.course.events }
        ensures offered { AreAllOffered self.now.course (map taken self.now.outlets) }
        ensures accounted { IsCourseAccounted self.now.course.setup self.now.course.events }
        ensures once { AreOutOnce self.now.course.setup self.now.course.events }
        ensures out_or_inside { AreOutOrInside self.now.course.setup self.now.course.events }
    {
        self.router.has_happened();
        self.router.has_account();
    }

    /// Whether every inlet has ended, so that nothing more can come through it.
    pub fn is_ended(&self) -> bool
        ensures ended { result ≡ true → AreAllEnded self.now.outlets }
        ensures not_ended { result ≡ false → AreAllEnded self.now.outlets → ⊥ }
        ensures whole { result ≡ true → AreAllWhole self.now.outlets }
    {
        for outlet in self.outlets.as_slice() {
            if !outlet.is_ended() {
                return false;
            }
        }
        true
    }

    /// Whether no packet is left inside. Then all that was taken from the inlets is settled.
    pub fn is_drained(&self) -> bool
        ensures yes { result ≡ true → IsDrained self.now.course }
        ensures no { result ≡ false → IsDrained self.now.course → ⊥ }
        ensures outcome { result ≡ true → IsLiveOutcome self.now.course (map taken self.now.outlets) }
    {
        self.has_account();
        self.router.is_drained()
    }
}
