//! Offers of packets.

ghost use Rattle.std.specs.Prelude.{◌≡◌, ◌<◌, ◌≤◌, ◌^◌, None, Some, length, slice_get, IfSome};
ghost use Rattle.clk_router.specs.Course.{sender_at};
ghost use Rattle.clickpull_c.specs.Answers.{IsUnknown};
ghost use Rattle.clickpull_c.specs.Calls.{AnswersOffer, EndsOffers, IsOfferedSoFar};

use crate::handle::Handle;
use crate::statuses::{AT_END, BAD_LENGTH, OK, UNKNOWN_SENDER};
use crate::values::{COffer, COffered, is_length, offered_for_c};
use clk_router::{CountingRouter, Router};

/// The sender with this number offers its next packet, of this length in bytes, to its queue. Fills in the packet and its outcome.
#[unsafe(no_mangle)]
pub extern "C" fn clk_router_offer(
    router: &mut Handle,
    sender: u32,
    length: u32,
    offered: &mut COffered,
) -> u32
    ensures answer { AnswersOffer router.old.router router.new.router sender length offered.old offered.new result }
    ensures stays { router.new.at ≡ router.old.at }
{
    offer(router.get_mut(), sender, length, offered)
}

/// Offers packets in the order of these offers, up to the first that can't be made. Fills in how many were made, and each packet with its
/// outcome.
#[unsafe(no_mangle)]
pub extern "C" fn clk_router_offer_many(
    router: &mut Handle,
    offers: &[COffer],
    offered: &mut [COffered],
    done: &mut usize,
) -> u32
    requires places { length offers.now ≤ length offered.old }
    ensures made { IsOfferedSoFar router.old.router router.new.router offers.now offered.old offered.new done.new }
    ensures ends { EndsOffers router.new.router offers.now done.new result }
    ensures stays { router.new.at ≡ router.old.at }
{
    let (made, status) = offer_each(router.get_mut(), offers, offered);
    *done = made;
    status
}

/// Makes these offers to this router, up to the first that can't be made. Returns how many were made, and the status.
fn offer_each(
    router: &mut CountingRouter,
    offers: &[COffer],
    offered: &mut [COffered],
) -> (usize, u32)
    requires places { length offers.now ≤ length offered.old }
    ensures made { IsOfferedSoFar router.old router.new offers.now offered.old offered.new result.0 }
    ensures ends { EndsOffers router.new offers.now result.0 result.1 }
{
    let mut done = 0;
    while done < offers.len() {
        let wanted = &offers[done];
        let status = offer(router, wanted.sender, wanted.length, &mut offered[done]);
        if status != OK {
            return (done, status);
        }
        done += 1;
    }
    (done, OK)
}

/// Makes one offer to this router, if it can be made, and fills in the packet with its outcome. Returns the status. It fills the place
/// itself, since a result of this size would be copied through memory.
// Inlined, so that a burst makes no call for each offer.
#[inline(always)]
fn offer(router: &mut CountingRouter, sender: u32, length: u32, offered: &mut COffered) -> u32
    ensures answer { AnswersOffer router.old router.new sender length offered.old offered.new result }
{
    if !is_length(length) {
        return BAD_LENGTH;
    }
    let Some(place) = place_of(router, sender) else {
        return UNKNOWN_SENDER;
    };
    let place = usize::from(place);
    if router.has_ended(place) {
        return AT_END;
    }
    let (packet, outcome) = router.offer(place, length as u16);
    *offered = offered_for_c(packet, outcome);
    OK
}

/// The place of the sender with this number, if there is one.
pub(crate) fn place_of(router: &Router, sender: u32) -> Option<u16>
    ensures found { IfSome result (λ place. sender_at router.now.setup place ≡ Some sender) }
    ensures missing { result ≡ None → IsUnknown router.now sender }
{
    if sender > u32::from(u16::MAX) {
        are_small(router.senders());
        return None;
    }
    router.place_of(sender as u16)
}

/// No number of 16 bits is above 65,535. A law, which does nothing.
fn are_small(numbers: &[u16])
    ensures { (place number : _) → slice_get numbers.now place ≡ Some number → number < 2 ^ 16 }
{}
