//! The taker's half of a ring.

ghost use Rattle.std.specs.Prelude.{◌≡◌, ◌≤◌, ◌++◌, length, take, drop};
ghost use mathlib.Core.List.{IsPrefix};
ghost use Rattle.rtrb.specs.Fifo.{Allowed};
ghost use Rattle.rtrb.specs.Ring.{received, known_items, SameConsumer};
ghost use Rattle.clk_inlet.specs.Items.{has_end, MayFollow};

use crate::inlet::Inlet;
use crate::item::{Item, ItemOrder};
use rtrb::Consumer;
use std::alloc::Global;

/// The taker's half of an inlet. It may go to a thread of its own. No call waits or allocates.
#[derive(Drop)]
pub struct Outlet {
    pub(crate) consumer: Consumer<Item, Global, ItemOrder>,
    ended: bool,
    ghost end_is_popped: { ended ≡ has_end (received consumer) },
}

impl Outlet {
    ghost use Rattle.std.specs.Prelude.{◌≡◌, ◌+◌, ◌<◌, ◌≤◌, ◌++◌, ◌∷◌, [], None, Some, true, false, length, take, drop, IfSome};
    ghost use mathlib.Core.List.{IsPrefix};
    ghost use Rattle.rtrb.specs.Ring.{received};
    ghost use Rattle.rtrb.specs.Fifo.{Allowed};
    ghost use Rattle.clk_inlet.specs.Items.{has_end, is_end, packets, AreShort, MayFollow, IsWhole};
    ghost use Rattle.clk_inlet.specs.Halves.{pushed, fits, popped, taken, seen, AreHalves};
    ghost use Rattle.clk_inlet.specs.declared.inlet.Inlet.{Inlet};

    // The taker's half of a new ring.
    pub(crate) fn of(consumer: Consumer<Item, Global, ItemOrder>) -> Outlet
        requires new { received consumer ≡ [] }
        ensures ring { result.consumer ≡ consumer }
    {
        Outlet {
            consumer,
            ended: false,
        }
    }

    #[tactic(auto, using(crate::proofs::Order::one_more_allowed))]
    /// Takes the next packet. Returns `None` if it sees none, or if the end has come. The end itself is never returned.
    pub fn take(&mut self) -> Option<Item>
        ensures popped { IfSome result (λ x. popped self.new ≡ popped self.old ++ x ∷ []) }
        ensures taken { IfSome result (λ x. taken self.new ≡ taken self.old ++ x ∷ []) }
        ensures packet { IfSome result (λ x. (is_end x ≡ false) × MayFollow (popped self.old) x) }
        ensures none { result ≡ None → taken self.new ≡ taken self.old }
        ensures ended { has_end (popped self.old) ≡ true → popped self.new ≡ popped self.old }
        ensures none_seen { result ≡ None → has_end (popped self.new) ≡ false → seen self.old ≡ [] }
        ensures grows { IsPrefix (popped self.old ++ seen self.old) (popped self.new ++ seen self.new) }
        ensures keeps { IsPrefix (popped self.old) (popped self.new) }
        ensures allowed { Allowed MayFollow [] (popped self.old) → Allowed MayFollow [] (popped self.new) }
        ensures halves { (i : Inlet) → AreHalves i self.old → AreHalves i self.new }
    {
        if self.ended {
            return None;
        }
        let item = self.consumer.pop().ok()?;
        if item.length == 0 {
            self.ended = true;
            return None;
        }
        Some(item)
    }

    // How many items are seen, and `wanted` at most. It looks at the ring only if fewer than `wanted` items were.
    fn seen_up_to(&mut self, wanted: usize) -> usize
        ensures count { (result ≤ wanted) × (result ≤ length (seen self.new)) }
        ensures all { result < wanted → result ≡ length (seen self.new) }
        ensures unchanged { popped self.new ≡ popped self.old }
        ensures seen { IsPrefix (seen self.old) (seen self.new) }
        ensures halves { (i : Inlet) → AreHalves i self.old → AreHalves i self.new }
    {
        if self.consumer.cached_slots() < wanted {
            return wanted.min(self.consumer.slots());
        }
        wanted
    }

    /// Takes packets into the start of `items`, as many as have come and fit there, and returns how many. The rest of `items` stays as it
    /// is. The end is never returned.
    pub fn take_many(&mut self, items: &mut [Item]) -> usize
        ensures count { result ≤ length items.old }
        ensures rest { drop result items.new ≡ drop result items.old }
        ensures taken { taken self.new ≡ taken self.old ++ take result items.new }
        ensures packets { has_end (take result items.new) ≡ false }
        ensures short { AreShort (take result items.new) }
        ensures may_follow { Allowed MayFollow (popped self.old) (take result items.new) }
        ensures ended { has_end (popped self.old) ≡ true → popped self.new ≡ popped self.old }
        ensures all_seen { result < length items.old → has_end (popped self.new) ≡ false → IsPrefix (seen self.old) (take result items.new) }
        ensures grows { IsPrefix (popped self.old ++ seen self.old) (popped self.new ++ seen self.new) }
        ensures keeps { IsPrefix (popped self.old) (popped self.new) }
        ensures packets_popped { has_end (popped self.new) ≡ false → popped self.new ≡ popped self.old ++ take result items.new }
        ensures allowed { Allowed MayFollow [] (popped self.old) → Allowed MayFollow [] (popped self.new) }
        ensures halves { (i : Inlet) → AreHalves i self.old → AreHalves i self.new }
    {
        if self.ended {
            return 0;
        }
        let count = self.seen_up_to(items.len());
        if count == 0 {
            return 0;
        }
        // Only the last of these can be the end. What stood in its place is then restored.
        let last = items[count - 1];
        pop_seen(&mut self.consumer, items, count);
        if items[count - 1].length == 0 {
            items[count - 1] = last;
            self.ended = true;
            return count - 1;
        }
        count
    }

    #[tactic(auto, using(crate::proofs::Order::whole))]
    /// Returns whether the end has come. Nothing can come after it.
    pub fn is_ended(&self) -> bool
        ensures ended { result ≡ has_end (popped self.now) }
        ensures whole { result ≡ true → IsWhole (popped self.now) }
    {
        self.ended
    }

    /// Looks at the ring on a thread that has both halves. What was popped and what is seen is then all that was pushed. No item moves.
    pub fn beside(&mut self, inlet: &mut Inlet)
        requires halves { AreHalves inlet.old self.old }
        ensures inlet { (pushed inlet.new ≡ pushed inlet.old) × (fits inlet.new ≡ fits inlet.old) }
        ensures popped { popped self.new ≡ popped self.old }
        ensures seen { IsPrefix (seen self.old) (seen self.new) }
        ensures all { popped self.new ++ seen self.new ≡ pushed inlet.new }
        ensures at_end { has_end (popped self.new) ≡ true → popped self.new ≡ pushed inlet.new }
        ensures halves { AreHalves inlet.new self.new }
    {
        self.consumer.slots_beside(&mut inlet.producer);
    }
}

// Pops `count` items, which are seen, into the start of `items`.
fn pop_seen(consumer: &mut Consumer<Item, Global, ItemOrder>, items: &mut [Item], count: usize)
    requires fits { count ≤ length items.old }
    requires seen { count ≤ length (known_items consumer.old) }
    ensures ring { SameConsumer consumer.old consumer.new }
    ensures received { received consumer.new ≡ received consumer.old ++ take count items.new }
    ensures rest { drop count items.new ≡ drop count items.old }
    ensures allowed { Allowed MayFollow (received consumer.old) (take count items.new) }
    ensures known { IsPrefix (known_items consumer.old) (take count items.new ++ known_items consumer.new) }
{
    let (front, _) = items.split_at_mut(count);
    match consumer.pop_entire_slice(front) {
        Ok(()) => {}
        Err(_) => unreachable!(),
    }
}
