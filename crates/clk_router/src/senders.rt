//! The senders of a router.

ghost use Rattle.std.specs.Prelude.{◌≡◌, ◌≤◌, ◌^◌, ◌==◌, false, length, None, Some, map, slice_get, IfSome, IfOk, IsOkUnless};
ghost use Rattle.std.specs.List.{list_any};
ghost use Rattle.clk_packet.specs.Lists.{AreRising};
ghost use Rattle.clk_tree.specs.PlanParts.{number_of};
ghost use Rattle.clk_router.specs.inside.Parts.{sender_made};

use clk_packet::{Fault, Packet};
use clk_tree::SenderSpec;
use std::alloc::Global;

/// A sender, and how often it has sent.
#[derive(Clone, Copy, Debug)]
pub struct Sender {
    /// Its number.
    number: u16,
    /// The number of the queue that it sends to.
    pub queue: u16,
    /// How many packets it has offered.
    pub sent: u32,
}

impl Sender {
    ghost use Rattle.std.specs.Prelude.{◌≡◌, ◌≤◌, ◌+◌, ◌<◌, ◌^◌};
    ghost use Rattle.clk_router.specs.inside.Parts.{sent_one_more};

    /// Its next packet, of this length in bytes. Counts it.
    pub fn next_packet(&mut self, length: u16) -> Packet
        requires has_length { 1 ≤ length }
        requires room { self.old.sent + 1 < 2 ^ 32 }
        ensures number { result.number ≡ self.old.sent }
        ensures sender { result.sender ≡ self.old.number }
        ensures length { result.length ≡ length }
        ensures counted { self.new ≡ sent_one_more self.old }
    {
        let number = self.sent;
        self.sent += 1;
        Packet {
            number,
            sender: self.number,
            length,
        }
    }
}

/// These senders, before they have sent anything. Fault 1 if an allocation fails.
pub fn senders_of(alloc: Global, specs: &[SenderSpec]) -> Result<Vec<Sender>, Fault>
    ensures made { IfOk result (λ senders. senders.items ≡ map sender_made specs.now) }
    ensures fault { IsOkUnless result Fault.Memory }
{
    let mut senders = Vec::new(alloc);
    for spec in specs {
        senders.push(Sender {
            number: spec.number,
            queue: spec.queue,
            sent: 0,
        })?;
    }
    Ok(senders)
}

/// The numbers of these senders. Fault 1 if an allocation fails.
pub fn numbers_of(alloc: Global, specs: &[SenderSpec]) -> Result<Vec<u16>, Fault>
    ensures made { IfOk result (λ numbers. numbers.items ≡ map number_of specs.now) }
    ensures fault { IsOkUnless result Fault.Memory }
{
    let mut numbers = Vec::new(alloc);
    for spec in specs {
        numbers.push(spec.number)?;
    }
    Ok(numbers)
}

/// The place of a number in this rising list, if it is there.
pub fn place_of(numbers: &[u16], number: u16) -> Option<u16>
    requires rising { AreRising numbers.now }
    ensures found { IfSome result (λ place. slice_get numbers.now place ≡ Some number) }
    ensures missing { result ≡ None → list_any (λ n. n == number) numbers.now ≡ false }
{
    // If numbers have no gaps, each is its own place.
    if let Some(here) = numbers.get(usize::from(number)) {
        if *here == number {
            return Some(number);
        }
    }
    let place = numbers.binary_search(&number).ok()?;
    // It fits, since rising numbers are no less than their places.
    Some(place as u16)
}

/// Rising numbers of 16 bits are 65,536 at most. A law, which does nothing.
pub fn are_few(numbers: &[u16])
    requires rising { AreRising numbers.now }
    ensures { length numbers.now ≤ 2 ^ 16 }
{}
