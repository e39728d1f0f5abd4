//! A packet that goes through a router.

ghost use Rattle.std.specs.Prelude.{◌≤◌};
ghost use Rattle.clk_router.specs.Events.{CanHappen};

use clk_packet::Packet;
use clk_router::CountingRouter;

/// The sender at the first place offers a packet of this length in bytes, if it can. Then the first device is pulled at this moment in
/// ticks, if it can be. All events at all senders, queues and devices can happen over the router's setup.
pub fn offer_and_pull(router: &mut CountingRouter, length: u16, moment: u64) -> Option<Packet>
    requires has_length { 1 ≤ length }
    ensures happened { CanHappen router.new.setup router.new.events }
{
    if router.can_offer(0) {
        router.offer(0, length);
    }
    let mut got = None;
    if router.can_pull(0, moment) {
        got = router.pull(0, moment);
    }
    // A law, which does nothing.
    router.has_happened();
    got
}
