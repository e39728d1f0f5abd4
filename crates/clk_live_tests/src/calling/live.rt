//! A packet that goes through a live router with its token.

ghost use Rattle.std.specs.Prelude.{◌<◌, length, IfSome};
ghost use Rattle.clk_router.specs.Events.{CanHappen};
ghost use Rattle.clk_live.specs.State.{seen, IsTokenOf};

use clk_live::{Emitted, Live, Taken};

/// Takes the next packet of the sender at this place, and pulls the first device once at this moment in ticks, if it can be pulled. All
/// events can happen over the router's plan, and each packet that is returned has the token that came with it.
pub fn take_and_pull(live: &mut Live, place: usize, moment: u64) -> (Option<Taken>, Option<Emitted>)
    requires there { place < length live.old.outlets }
    ensures happened { CanHappen live.new.course.setup live.new.course.events }
    ensures taken { IfSome result.0 (λ t. IsTokenOf live.new.course.setup (seen live.new).items t.packet t.token) }
    ensures emitted { IfSome result.1 (λ e. IsTokenOf live.new.course.setup (seen live.new).items e.packet e.token) }
{
    let taken = live.take(place);
    let mut emitted = None;
    if live.router().can_pull(0, moment) {
        emitted = live.pull(0, moment);
    }
    // A law, which does nothing.
    live.has_account();
    (taken, emitted)
}
