//! Taking packets from inlets.

ghost use Rattle.clk_live.specs.declared.taking.TheConstants.{RUN};

use crate::live::Live;
use crate::offering::{offer_next, offer_run};
use clk_inlet::Item;
use clk_packet::Packet;

// How many packets are taken from an inlet at once at most.
const RUN: usize = 16;

// What a place of a run has before a packet is filled in.
const NO_ITEM: Item = Item {
    token: 0,
    length: 0,
};

/// The outcome of a packet that was taken from its inlet and offered to its queue.
#[derive(Clone, Copy, Debug, PartialEq, Eq)]
pub enum OfferOutcome {
    /// The queue accepted it.
    Accepted,
    /// The queue was full and refused it.
    Refused,
    /// The queue was full. It accepted the packet, and evicted the one at its front.
    Evicted {
        /// The evicted packet.
        packet: Packet,
        /// The token that came with the evicted packet.
        token: u64,
    },
}

/// A packet that was taken from its inlet and offered to its queue.
#[derive(Clone, Copy, Debug, PartialEq, Eq)]
pub struct Taken {
    /// The packet.
    pub packet: Packet,
    /// The token that came with it.
    pub token: u64,
    /// The outcome of its offer.
    pub outcome: OfferOutcome,
}

impl Live {
    ghost use Rattle.std.specs.Prelude.{◌≡◌, ◌+◌, ◌-◌, ◌<◌, ◌≤◌, ℕ, List, true, false, None, length, take, drop, slice_get, IfSome};
    ghost use Rattle.clk_router.specs.Course.{sender_at};
    ghost use Rattle.clk_live.specs.State.{Seen, seen, starts_at, IsTokenOf, AllGoOn};
    ghost use Rattle.clk_live.specs.Taking.{IsTaken, AreTaken, AreOf, AreAtMost, AreSharesOr, AreSharesBefore, StartsNext, AllAccepted, HasNone, GaveAll, GaveAllThatFits, IsQueueFull};
    ghost use Rattle.clk_live.specs.inside.Each.{AreEach, GaveAllWanted, GaveSharesOr, IsLast};
    ghost use Rattle.clk_live.specs.inside.Room.{StayFull};

    /// Takes the next packet from the inlet of the sender at this place, and offers it to the sender's queue. Returns `None` if it sees no
    /// packet there.
    pub fn take(&mut self, place: usize) -> Option<Taken>
        requires there { place < length self.old.outlets }
        ensures taken { IfSome result (λ t. IsTaken place (seen self.old) t (seen self.new)) }
        ensures token { IfSome result (λ t. IsTokenOf self.new.course.setup (seen self.new).items t.packet t.token) }
        ensures none { result ≡ None → seen self.new ≡ seen self.old }
        ensures none_waits { result ≡ None → HasNone self.old.outlets self.new.outlets place }
        ensures outlets { AllGoOn self.old.outlets self.new.outlets }
        ensures turn { self.new.turn ≡ self.old.turn }
    {
        let item = self.outlets[place].take()?;
        Some(offer_next(&mut self.router, &mut self.tokens, place, item))
    }

    // Whether the queue of the sender at this place is full.
    fn is_full(&self, place: usize) -> bool
        requires there { place < length self.now.outlets }
        ensures full { result ≡ true → IsQueueFull self.now.course place }
        ensures not_full { result ≡ false → IsQueueFull self.now.course place → ⊥ }
    {
        let queue = self.router.accounts()[place].queue;
        let state = self.router.queue(queue);
        state.held == state.capacity
    }

    // Takes the next packet of the sender at a place if it fits: if the queue is full, takes none.
    fn take_fitting(&mut self, place: usize) -> Option<Taken>
        requires there { place < length self.old.outlets }
        ensures taken { IfSome result (λ t. IsTaken place (seen self.old) t (seen self.new)) }
        ensures none { result ≡ None → seen self.new ≡ seen self.old }
        ensures gave_all { result ≡ None → GaveAllWanted true self.old self.new place }
        ensures accepted { IfSome result (λ t. t.outcome ≡ OfferOutcome.Accepted) }
        ensures full { StayFull self.old.course self.new.course }
        ensures outlets { AllGoOn self.old.outlets self.new.outlets }
        ensures turn { self.new.turn ≡ self.old.turn }
    {
        if self.is_full(place) {
            return None;
        }
        self.take_next(place)
    }

    // Takes the next packet of the sender at a place. A queue that is not full accepts it, and a full queue stays full.
    fn take_next(&mut self, place: usize) -> Option<Taken>
        requires there { place < length self.old.outlets }
        ensures taken { IfSome result (λ t. IsTaken place (seen self.old) t (seen self.new)) }
        ensures none { result ≡ None → seen self.new ≡ seen self.old }
        ensures gave_all { result ≡ None → GaveAll self.old.outlets self.new.outlets place }
        ensures accepted { (IsQueueFull self.old.course place → ⊥) → IfSome result (λ t. t.outcome ≡ OfferOutcome.Accepted) }
        ensures full { StayFull self.old.course self.new.course }
        ensures outlets { AllGoOn self.old.outlets self.new.outlets }
        ensures turn { self.new.turn ≡ self.old.turn }
    {
        // Only a full queue refuses or evicts, and an offer leaves it full, by these laws, which do nothing.
        self.router.queues_go_on();
        self.router.has_happened();
        let taken = self.take(place);
        self.router.has_happened();
        taken
    }

    // Takes packets of the sender at a place into `taken`, from its place `from` on, up to `most`. With `only_fitting` it takes only those
    // that fit. Runs go through `items`, whose contents don't matter. Returns how many places of `taken` are filled then.
    fn fill(
        &mut self,
        place: usize,
        only_fitting: bool,
        items: &mut [Item; RUN],
        taken: &mut [Taken],
        from: usize,
        most: usize,
    ) -> usize
        requires there { place < length self.old.outlets }
        requires within { (from ≤ most) × (most ≤ length taken.old) }
        ensures count { (from ≤ result) × (result ≤ most) }
        ensures taken { (old : Seen) (before : List Taken) → AreTaken old (seen self.old) before taken.old from → AreTaken old (seen self.new) before taken.new result }
        ensures of_sender { AreOf self.old.course.setup place (drop from (take result taken.new)) }
        ensures front { take from taken.new ≡ take from taken.old }
        ensures gave_all { result < most → GaveAllWanted only_fitting self.old self.new place }
        ensures accepted { only_fitting ≡ true → AllAccepted (take from taken.old) → AllAccepted (take result taken.new) }
        ensures full { StayFull self.old.course self.new.course }
        ensures outlets { AllGoOn self.old.outlets self.new.outlets }
        ensures unchanged { (self.new.turn ≡ self.old.turn) × (self.new.course.setup ≡ self.old.course.setup) }
    {
        if only_fitting {
            return self.fill_fitting(place, taken, from, most);
        }
        self.fill_all(place, items, taken, from, most)
    }

    // Takes packets of the sender at a place into `taken`, from its place `from` on, up to `most`, while its queue has room for them.
    // Returns how many places of `taken` are filled then.
    fn fill_fitting(&mut self, place: usize, taken: &mut [Taken], from: usize, most: usize) -> usize
        requires there { place < length self.old.outlets }
        requires within { (from ≤ most) × (most ≤ length taken.old) }
        ensures count { (from ≤ result) × (result ≤ most) }
        ensures taken { (old : Seen) (before : List Taken) → AreTaken old (seen self.old) before taken.old from → AreTaken old (seen self.new) before taken.new result }
        ensures of_sender { AreOf self.old.course.setup place (drop from (take result taken.new)) }
        ensures front { take from taken.new ≡ take from taken.old }
        ensures gave_all { result < most → GaveAllWanted true self.old self.new place }
        ensures accepted { AllAccepted (take from taken.old) → AllAccepted (take result taken.new) }
        ensures full { StayFull self.old.course self.new.course }
        ensures outlets { AllGoOn self.old.outlets self.new.outlets }
        ensures unchanged { (self.new.turn ≡ self.old.turn) × (self.new.course.setup ≡ self.old.course.setup) }
    {
        let mut count = from;
        while count < most {
            let Some(one) = self.take_fitting(place) else {
                return count;
            };
            taken[count] = one;
            count += 1;
        }
        count
    }

    // Takes packets of the sender at a place into `taken`, from its place `from` on, up to `most`, one run after another. Returns how many
    // places of `taken` are filled then.
    fn fill_all(
        &mut self,
        place: usize,
        items: &mut [Item; RUN],
        taken: &mut [Taken],
        from: usize,
        most: usize,
    ) -> usize
        requires there { place < length self.old.outlets }
        requires within { (from ≤ most) × (most ≤ length taken.old) }
        ensures count { (from ≤ result) × (result ≤ most) }
        ensures taken { (old : Seen) (before : List Taken) → AreTaken old (seen self.old) before taken.old from → AreTaken old (seen self.new) before taken.new result }
        ensures of_sender { AreOf self.old.course.setup place (drop from (take result taken.new)) }
        ensures front { take from taken.new ≡ take from taken.old }
        ensures gave_all { result < most → GaveAll self.old.outlets self.new.outlets place }
        ensures full { StayFull self.old.course self.new.course }
        ensures outlets { AllGoOn self.old.outlets self.new.outlets }
        ensures unchanged { (self.new.turn ≡ self.old.turn) × (self.new.course.setup ≡ self.old.course.setup) }
    {
        let mut count = from;
        while count < most {
            let end = count + RUN.min(most - count);
            let next = self.take_run(place, items, taken, count, end);
            if next < end {
                return next;
            }
            count = next;
        }
        count
    }

    // Takes a run of packets of the sender at a place into `taken`, from its place `from` on, up to `most`. Reads the ring once. Returns
    // how many places of `taken` are filled then.
    fn take_run(
        &mut self,
        place: usize,
        items: &mut [Item; RUN],
        taken: &mut [Taken],
        from: usize,
        most: usize,
    ) -> usize
        requires there { place < length self.old.outlets }
        requires within { (from ≤ most) × (most ≤ length taken.old) }
        requires run { most ≤ from + RUN }
        ensures count { (from ≤ result) × (result ≤ most) }
        ensures taken { (old : Seen) (before : List Taken) → AreTaken old (seen self.old) before taken.old from → AreTaken old (seen self.new) before taken.new result }
        ensures of_sender { AreOf self.old.course.setup place (drop from (take result taken.new)) }
        ensures front { take from taken.new ≡ take from taken.old }
        ensures gave_all { result < most → GaveAll self.old.outlets self.new.outlets place }
        ensures full { StayFull self.old.course self.new.course }
        ensures outlets { AllGoOn self.old.outlets self.new.outlets }
        ensures unchanged { (self.new.turn ≡ self.old.turn) × (self.new.course.setup ≡ self.old.course.setup) }
    {
        let (wanted, _) = items.split_at_mut(most - from);
        let count = self.outlets[place].take_many(wanted);
        let (run, _) = wanted.split_at(count);
        offer_run(&mut self.router, &mut self.tokens, place, run, taken, from);
        from + count
    }

    /// Takes packets that wait in the inlet of the sender at this place into the start of `taken`, as many as it has places for. Offers
    /// each to the sender's queue, in order. Returns how many.
    pub fn take_many(&mut self, place: usize, taken: &mut [Taken]) -> usize
        requires there { place < length self.old.outlets }
        ensures taken { AreTaken (seen self.old) (seen self.new) taken.old taken.new result }
        ensures of_sender { AreOf self.old.course.setup place (take result taken.new) }
        ensures gave_all { result < length taken.old → GaveAll self.old.outlets self.new.outlets place }
        ensures outlets { AllGoOn self.old.outlets self.new.outlets }
        ensures turn { self.new.turn ≡ self.old.turn }
    {
        let mut items = [NO_ITEM; RUN];
        let most = taken.len();
        self.fill(place, false, &mut items, taken, 0, most)
    }

    /// Takes packets from all inlets in one round over the senders, at most `each` from each, into the start of `taken`. Offers each to its
    /// sender's queue. Returns how many. The round ends early if `taken` is full, and the next one starts after the sender of its last packet.
    /// Otherwise, if this one took a packet, the next one starts one sender later. So none of the senders of a queue is the first in each
    /// round, but which of them gets a free place of a full queue depends on what else is taken.
    pub fn take_in(&mut self, each: usize, taken: &mut [Taken]) -> usize
        ensures taken { AreTaken (seen self.old) (seen self.new) taken.old taken.new result }
        ensures each { AreAtMost each (take result taken.new) }
        ensures shares { result < length taken.old → AreSharesOr (GaveAll self.old.outlets self.new.outlets) self.old.course.setup each (take result taken.new) }
        ensures in_turn { AreSharesBefore (GaveAll self.old.outlets self.new.outlets) self.old.course.setup (starts_at self.old) (length self.old.outlets) each (slice_get taken.new (result - 1)) (take result taken.new) }
        ensures turn { StartsNext self.old self.new (length taken.old) result (slice_get taken.new (result - 1)) }
        ensures outlets { AllGoOn self.old.outlets self.new.outlets }
    {
        self.round(false, each, taken)
    }

    /// Does what [`take_in`](Live::take_in) does, but leaves a packet, or the end, in its inlet while its queue is full. So a full queue
    /// holds back its senders: no packet is refused, and none is evicted.
    pub fn take_in_fitting(&mut self, each: usize, taken: &mut [Taken]) -> usize
        ensures taken { AreTaken (seen self.old) (seen self.new) taken.old taken.new result }
        ensures each { AreAtMost each (take result taken.new) }
        ensures shares { result < length taken.old → AreSharesOr (GaveAllThatFits self.old self.new) self.old.course.setup each (take result taken.new) }
        ensures in_turn { AreSharesBefore (GaveAllThatFits self.old self.new) self.old.course.setup (starts_at self.old) (length self.old.outlets) each (slice_get taken.new (result - 1)) (take result taken.new) }
        ensures accepted { AllAccepted (take result taken.new) }
        ensures turn { StartsNext self.old self.new (length taken.old) result (slice_get taken.new (result - 1)) }
        ensures outlets { AllGoOn self.old.outlets self.new.outlets }
    {
        self.round(true, each, taken)
    }

    // Takes packets from all inlets in one round. With `only_fitting` it takes only those that fit. Returns how many.
    fn round(&mut self, only_fitting: bool, each: usize, taken: &mut [Taken]) -> usize
        ensures taken { AreTaken (seen self.old) (seen self.new) taken.old taken.new result }
        ensures each { AreAtMost each (take result taken.new) }
        ensures shares { result < length taken.old → AreSharesOr (GaveAllWanted only_fitting self.old self.new) self.old.course.setup each (take result taken.new) }
        ensures in_turn { AreSharesBefore (GaveAllWanted only_fitting self.old self.new) self.old.course.setup (starts_at self.old) (length self.old.outlets) each (slice_get taken.new (result - 1)) (take result taken.new) }
        ensures accepted { only_fitting ≡ true → AllAccepted (take result taken.new) }
        ensures turn { StartsNext self.old self.new (length taken.old) result (slice_get taken.new (result - 1)) }
        ensures outlets { AllGoOn self.old.outlets self.new.outlets }
    {
        // The numbers of senders rise, so each stands at one place.
        let _ = self.router.senders();
        let places = self.outlets.len();
        let start = self.starts_at();
        let mut items = [NO_ITEM; RUN];
        let (count, next) = self.sweep(start, places, only_fitting, each, &mut items, taken, 0);
        let (count, again) = self.sweep(0, start, only_fitting, each, &mut items, taken, count);
        let after_last = if next < places { next } else { again };
        let later = if count == 0 { start } else { start + 1 };
        self.turn = if count < taken.len() {
            later
        } else {
            after_last
        };
        count
    }

    // The place of the sender at which the next round starts.
    fn starts_at(&self) -> usize
        ensures value { result ≡ starts_at self.now }
        ensures within { result ≤ length self.now.outlets }
    {
        if self.turn < self.outlets.len() {
            self.turn
        } else {
            0
        }
    }

    // Takes packets of the senders from place `first` up to `end` into `taken`, from its place `from` on, at most `each` from each. Returns
    // how many places of `taken` are filled then, and the place after the last sender visited.
    fn sweep(
        &mut self,
        first: usize,
        end: usize,
        only_fitting: bool,
        each: usize,
        items: &mut [Item; RUN],
        taken: &mut [Taken],
        from: usize,
    ) -> (usize, usize)
        requires there { (first ≤ end) × (end ≤ length self.old.outlets) }
        requires within { from ≤ length taken.old }
        ensures count { (from ≤ result.0) × (result.0 ≤ length taken.old) × (result.1 ≤ end) }
        ensures taken { (old : Seen) (before : List Taken) → AreTaken old (seen self.old) before taken.old from → AreTaken old (seen self.new) before taken.new result.0 }
        ensures front { take from taken.new ≡ take from taken.old }
        ensures each { AreEach self.old.course.setup first end each (take from taken.old) (take result.0 taken.new) }
        ensures shares { result.0 < length taken.old → GaveSharesOr (GaveAllWanted only_fitting self.old self.new) self.old.course.setup first end each (take from taken.old) (take result.0 taken.new) }
        ensures in_turn { result.0 ≡ length taken.old → GaveSharesOr (GaveAllWanted only_fitting self.old self.new) self.old.course.setup first (result.1 - 1) each (take from taken.old) (take result.0 taken.new) }
        ensures full { StayFull self.old.course self.new.course }
        ensures ended { result.0 < length taken.old → result.1 ≡ end }
        ensures last { result.0 ≡ length taken.old → IsLast self.old.course.setup first from taken.new result.0 result.1 }
        ensures accepted { only_fitting ≡ true → AllAccepted (take from taken.old) → AllAccepted (take result.0 taken.new) }
        ensures outlets { AllGoOn self.old.outlets self.new.outlets }
        ensures setup { self.new.course.setup ≡ self.old.course.setup }
    {
        // The numbers of senders rise, so each stands at one place.
        let _ = self.router.senders();
        let mut count = from;
        let mut place = first;
        while place < end && count < taken.len() {
            let most = count + each.min(taken.len() - count);
            count = self.fill(place, only_fitting, items, taken, count, most);
            place += 1;
        }
        (count, place)
    }
}
