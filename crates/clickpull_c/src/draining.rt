//! Drains of devices.

ghost use Rattle.std.specs.Prelude.{◌≡◌, ◌<◌, ◌⊎◌};
ghost use Rattle.clickpull_c.specs.Answers.{HasNoDevice};
ghost use Rattle.clickpull_c.specs.Calls.{IsDrained};
ghost use Rattle.clickpull_c.specs.Counts.{device_count};

use crate::handle::Handle;
use crate::statuses::{AT_END, NONE, OK, UNKNOWN_DEVICE};
use crate::values::{CDeparture, packet_for_c};
use clk_router::CountingRouter;

/// Drains the device with this number: pulls it one tick apart, the first time one tick after its latest moment. Stops when nothing is left
/// for it, `pulls` pulls were made, or all places for departures are filled. Fills in how many packets were emitted.
#[unsafe(no_mangle)]
pub extern "C" fn clk_router_drain(
    router: &mut Handle,
    device: u16,
    departures: &mut [CDeparture],
    pulls: u64,
    given: &mut usize,
) -> u32
    ensures answer { IsDrained router.old.router router.new.router device pulls departures.old departures.new given.new result ⊎ (HasNoDevice router.old.router device result × (router.new.router ≡ router.old.router) × (departures.new ≡ departures.old) × (given.new ≡ 0)) }
    ensures stays { router.new.at ≡ router.old.at }
{
    let router = router.get_mut();
    if usize::from(device) >= router.devices() {
        *given = 0;
        return UNKNOWN_DEVICE;
    }
    let (emitted, status) = drain(router, device, departures, pulls);
    *given = emitted;
    status
}

/// Drains a device of this router. Returns how many packets were emitted, and the status.
fn drain(
    router: &mut CountingRouter,
    device: u16,
    departures: &mut [CDeparture],
    pulls: u64,
) -> (usize, u32)
    requires device { device < device_count router.old }
    ensures { IsDrained router.old router.new device pulls departures.old departures.new result.0 result.1 }
{
    let mut given = 0;
    let mut made = 0;
    while router.left(device) > 0 {
        if given == departures.len() || made == pulls {
            return (given, NONE);
        }
        let moment = router.moment(device) + 1;
        if !router.can_pull(device, moment) {
            return (given, AT_END);
        }
        if let Some(packet) = router.pull(device, moment) {
            departures[given] = CDeparture {
                moment,
                packet: packet_for_c(packet),
            };
            given += 1;
        }
        made += 1;
    }
    (given, OK)
}
