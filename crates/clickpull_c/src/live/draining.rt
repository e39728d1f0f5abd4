//! Drains of devices of a live router.

ghost use Rattle.std.specs.Prelude.{◌≡◌, ◌<◌, length};
ghost use Rattle.clickpull_c.specs.live.Drains.{AnswersDrain, Drains};

use super::handle::LiveHandle;
use super::router::LiveRouter;
use super::values::{CDeparted, departed_for_c};
use crate::statuses::{AT_END, NONE, OK, RECLAIMED, UNKNOWN_DEVICE};
use clk_live::{Departed, Live};

/// Drains the device with this number: pulls it one tick apart, the first time one tick after its latest moment. Stops when nothing is left
/// for it, `pulls` pulls were made, or all places are filled. Fills in how many packets were emitted.
#[unsafe(no_mangle)]
pub extern "C" fn clk_raw_live_drain(
    live: &mut LiveHandle,
    device: u16,
    departures: &mut [CDeparted],
    pulls: u64,
    given: &mut usize,
) -> u32
    ensures answer { AnswersDrain live.old.router live.new.router device pulls departures.old departures.new given.new result }
    ensures stays { live.new.at ≡ live.old.at }
{
    let (emitted, status) = drain(live.get_mut(), device, departures, pulls);
    *given = emitted;
    status
}

// Drains a device, if there is one with this number. Returns how many packets were emitted, and the status.
fn drain(
    router: &mut LiveRouter,
    device: u16,
    departures: &mut [CDeparted],
    pulls: u64,
) -> (usize, u32)
    ensures { AnswersDrain router.old router.new device pulls departures.old departures.new result.0 result.1 }
{
    let Some(live) = &mut router.live else {
        return (0, RECLAIMED);
    };
    if usize::from(device) >= live.router().devices() {
        return (0, UNKNOWN_DEVICE);
    }
    drain_device(live, device, departures, pulls)
}

// Drains a device. Returns how many packets were emitted, and the status.
fn drain_device(
    live: &mut Live,
    device: u16,
    departures: &mut [CDeparted],
    pulls: u64,
) -> (usize, u32)
    requires device { device < length live.old.course.setup.trees }
    ensures { Drains device pulls live.old live.new departures.old departures.new result.0 result.1 }
{
    let mut given = 0;
    let mut made = 0;
    while live.router().left(device) > 0 {
        if given == departures.len() || made == pulls {
            return (given, NONE);
        }
        let moment = live.router().moment(device) + 1;
        if !live.router().can_pull(device, moment) {
            return (given, AT_END);
        }
        if let Some(one) = live.pull(device, moment) {
            departures[given] = departed_for_c(Departed {
                moment,
                packet: one.packet,
                token: one.token,
            });
            given += 1;
        }
        made += 1;
    }
    (given, OK)
}
