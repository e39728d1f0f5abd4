//! The drain of a run: each device is drained, one after the other.

ghost use Rattle.std.specs.Prelude.{◌≡◌, ◌<◌, ℕ, length};
ghost use Rattle.clk_router.specs.Course.{CanClose};
ghost use Rattle.clk_live_run.specs.inside.Consuming.{HasClosed, HasDrained};

use clk_live::Live;
use std::sync::Wait;

/// Drains each device of a live router, by number.
pub fn close_devices<P: Wait>(wait: &P, live: &mut Live)
    requires can { (d : ℕ) → d < length live.old.course.setup.trees → CanClose live.old.course d 0 }
    ensures closed { HasClosed (length live.old.course.setup.trees) live.old live.new }
{
    for device in 0..live.router().devices() as u16 {
        drain(wait, live, device);
    }
}

// Pulls a device one tick apart, from one tick after its latest moment, until no packet is left for it.
fn drain<P: Wait>(wait: &P, live: &mut Live, device: u16)
    requires can { CanClose live.old.course device 0 }
    ensures drained { HasDrained device live.old live.new }
{
    // A drain ends, and what has happened can happen, by these laws, which do nothing.
    live.router().drains_end();
    live.router().has_happened();
    for _ in wait.forever() {
        if live.router().left(device) == 0 {
            return;
        }
        let moment = live.router().moment(device) + 1;
        let _ = live.pull(device, moment);
        live.router().has_happened();
    }
    unreachable!()
}
