//! Taking packets from inlets.

ghost use Rattle.std.specs.Prelude.{◌≡◌, ◌≤◌, ◌<◌, length, map, take, Some};
ghost use Rattle.clk_live.specs.State.{LiveState};
ghost use Rattle.clk_router.specs.Course.{sender_at};
ghost use Rattle.clickpull_c.specs.Filled.{IsFilled};
ghost use Rattle.clickpull_c.specs.live.Takes.{AnswersTake, HasNoSender, TakesIn, TakesOf, TakesWhatFits, most_into};
ghost use Rattle.clickpull_c.specs.live.Values.{taken_in_c};

use super::handing::index_of;
use super::handle::LiveHandle;
use super::router::LiveRouter;
use super::values::{CTaken, taken_for_c};
use crate::statuses::{RECLAIMED, UNKNOWN_SENDER, given_status};
use clk_live::{Live, OfferOutcome, Taken};
use clk_packet::Packet;

/// How many packets one call takes at most.
pub const MOST_TAKEN: usize = 64;

/// Places for as many packets as one call takes.
pub type Slots = [Taken; MOST_TAKEN];

/// Slots before the first packet is taken.
pub const FREE_SLOTS: Slots = [FREE; MOST_TAKEN];

// The value of a slot that no packet was taken into.
const FREE: Taken = Taken {
    packet: Packet {
        number: 0,
        sender: 0,
        length: 1,
    },
    token: 0,
    outcome: OfferOutcome::Accepted,
};

/// Takes packets that wait in the inlet of the sender with this number, as many as find a place, 64 at most. Offers each to the sender's
/// queue. Fills in how many were taken, and each with its token and outcome.
#[unsafe(no_mangle)]
pub extern "C" fn clk_raw_live_take(
    live: &mut LiveHandle,
    sender: u32,
    taken: &mut [CTaken],
    given: &mut usize,
) -> u32
    ensures answer { AnswersTake live.old.router live.new.router (λ a b. TakesOf sender a b taken.old taken.new given.new) (λ s. HasNoSender s.course sender result) taken.old taken.new given.new result }
    ensures stays { live.new.at ≡ live.old.at }
{
    let (count, status) = take(live.get_mut(), sender, taken);
    *given = count;
    status
}

/// Takes packets in one round over the senders, at most `each` from each, as many as find a place, 64 at most. Offers each to its sender's
/// queue. Fills in how many were taken, and each with its token and outcome. If the call takes as many as it may, the next round starts
/// after the sender of its last packet, and otherwise, if this one took a packet, one sender later.
#[unsafe(no_mangle)]
pub extern "C" fn clk_raw_live_take_in(
    live: &mut LiveHandle,
    each: usize,
    taken: &mut [CTaken],
    given: &mut usize,
) -> u32
    ensures answer { AnswersTake live.old.router live.new.router (λ a b. TakesIn each a b taken.old taken.new given.new) (λ s. ⊥) taken.old taken.new given.new result }
    ensures stays { live.new.at ≡ live.old.at }
{
    let (count, status) = take_in(live.get_mut(), each, taken);
    *given = count;
    status
}

/// Does what `clk_raw_live_take_in` does, but leaves a packet in its inlet while its queue is full. So no packet is refused, and none is
/// evicted.
#[unsafe(no_mangle)]
pub extern "C" fn clk_raw_live_take_what_fits(
    live: &mut LiveHandle,
    each: usize,
    taken: &mut [CTaken],
    given: &mut usize,
) -> u32
    ensures answer { AnswersTake live.old.router live.new.router (λ a b. TakesWhatFits each a b taken.old taken.new given.new) (λ s. ⊥) taken.old taken.new given.new result }
    ensures stays { live.new.at ≡ live.old.at }
{
    let (count, status) = take_what_fits(live.get_mut(), each, taken);
    *given = count;
    status
}

// Takes packets of a sender. Returns how many, and the status.
fn take(router: &mut LiveRouter, sender: u32, taken: &mut [CTaken]) -> (usize, u32)
    ensures { AnswersTake router.old router.new (λ a b. TakesOf sender a b taken.old taken.new result.0) (λ s. HasNoSender s.course sender result.1) taken.old taken.new result.0 result.1 }
{
    let Some(live) = &mut router.live else {
        return (0, RECLAIMED);
    };
    let Some(place) = index_of(live.router(), sender) else {
        return (0, UNKNOWN_SENDER);
    };
    let places = taken.len();
    let count = take_at(live, &mut router.slots, place, sender, taken);
    (count, given_status(count, places))
}

// Takes packets in one round. Returns how many, and the status.
fn take_in(router: &mut LiveRouter, each: usize, taken: &mut [CTaken]) -> (usize, u32)
    ensures { AnswersTake router.old router.new (λ a b. TakesIn each a b taken.old taken.new result.0) (λ s. ⊥) taken.old taken.new result.0 result.1 }
{
    let Some(live) = &mut router.live else {
        return (0, RECLAIMED);
    };
    let places = taken.len();
    let count = take_round(live, &mut router.slots, each, taken);
    (count, given_status(count, places))
}

// Takes packets that fit, in one round. Returns how many, and the status.
fn take_what_fits(router: &mut LiveRouter, each: usize, taken: &mut [CTaken]) -> (usize, u32)
    ensures { AnswersTake router.old router.new (λ a b. TakesWhatFits each a b taken.old taken.new result.0) (λ s. ⊥) taken.old taken.new result.0 result.1 }
{
    let Some(live) = &mut router.live else {
        return (0, RECLAIMED);
    };
    let places = taken.len();
    let count = take_fitting_round(live, &mut router.slots, each, taken);
    (count, given_status(count, places))
}

// Takes packets of the sender at a place. Returns how many.
fn take_at(
    live: &mut Live,
    slots: &mut Slots,
    place: usize,
    sender: u32,
    taken: &mut [CTaken],
) -> usize
    requires sender { sender_at live.old.course.setup place ≡ Some sender }
    ensures { TakesOf sender live.old live.new taken.old taken.new result }
{
    let most = taken.len().min(MOST_TAKEN);
    let (slots, _) = slots.split_at_mut(most);
    // There is an outlet for each sender, by this law, which does nothing.
    let _ = live.router();
    let count = live.take_many(place, slots);
    fill_in(slots, count, taken);
    count
}

// Takes packets in one round. Returns how many.
fn take_round(live: &mut Live, slots: &mut Slots, each: usize, taken: &mut [CTaken]) -> usize
    ensures { TakesIn each live.old live.new taken.old taken.new result }
{
    let most = taken.len().min(MOST_TAKEN);
    let (slots, _) = slots.split_at_mut(most);
    let count = live.take_in(each, slots);
    fill_in(slots, count, taken);
    count
}

// Takes packets that fit, in one round. Returns how many.
fn take_fitting_round(
    live: &mut Live,
    slots: &mut Slots,
    each: usize,
    taken: &mut [CTaken],
) -> usize
    ensures { TakesWhatFits each live.old live.new taken.old taken.new result }
{
    let most = taken.len().min(MOST_TAKEN);
    let (slots, _) = slots.split_at_mut(most);
    let count = live.take_in_fitting(each, slots);
    fill_in(slots, count, taken);
    count
}

// Fills in the packets that were taken into the first slots, as C sees them.
fn fill_in(slots: &[Taken], count: usize, taken: &mut [CTaken])
    requires within { (count ≤ length slots.now) × (count ≤ length taken.old) }
    ensures filled { IsFilled taken.old taken.new (map taken_in_c (take count slots.now)) }
{
    let mut done = 0;
    while done < count {
        taken[done] = taken_for_c(slots[done]);
        done += 1;
    }
}
