//! Pulls of devices of a live router.

ghost use Rattle.std.specs.Prelude.{◌≡◌, ◌<◌};
ghost use Rattle.clk_router.specs.Course.{CanPull};
ghost use Rattle.clickpull_c.specs.live.Pulls.{AnswersOnePull, AnswersPulls, PullsMany};

use super::handle::LiveHandle;
use super::router::LiveRouter;
use super::values::{CEmitted, emitted_for_c};
use crate::pulling::refusal;
use crate::statuses::{NONE, OK, RECLAIMED, given_status};
use clk_live::Live;

/// Pulls the device with this number once, at this moment in ticks, or at the device's latest moment if that is later. Fills in the packet
/// with its token, if one is emitted.
#[unsafe(no_mangle)]
pub extern "C" fn clk_raw_live_pull(
    live: &mut LiveHandle,
    device: u16,
    moment: u64,
    packet: &mut CEmitted,
) -> u32
    ensures answer { AnswersOnePull live.old.router live.new.router device moment packet.old packet.new result }
    ensures stays { live.new.at ≡ live.old.at }
{
    pull(live.get_mut(), device, moment, packet)
}

/// Pulls the device with this number at this moment, in ticks, until a pull emits none, all places are filled, or no more pulls can be
/// made. Fills in how many packets were emitted.
#[unsafe(no_mangle)]
pub extern "C" fn clk_raw_live_pull_many(
    live: &mut LiveHandle,
    device: u16,
    moment: u64,
    packets: &mut [CEmitted],
    given: &mut usize,
) -> u32
    ensures answer { AnswersPulls live.old.router live.new.router device moment packets.old packets.new given.new result }
    ensures stays { live.new.at ≡ live.old.at }
{
    let (emitted, status) = pull_many(live.get_mut(), device, moment, packets);
    *given = emitted;
    status
}

// Pulls a device once, if it can be pulled. Returns the status.
fn pull(router: &mut LiveRouter, device: u16, moment: u64, packet: &mut CEmitted) -> u32
    ensures { AnswersOnePull router.old router.new device moment packet.old packet.new result }
{
    let Some(live) = &mut router.live else {
        return RECLAIMED;
    };
    if let Some(status) = refusal(live.router(), device, moment) {
        return status;
    }
    match live.pull(device, moment) {
        Some(one) => {
            *packet = emitted_for_c(one);
            OK
        }
        None => NONE,
    }
}

// Pulls a device again and again, if it can be pulled. Returns how many packets were emitted, and the status.
fn pull_many(
    router: &mut LiveRouter,
    device: u16,
    moment: u64,
    packets: &mut [CEmitted],
) -> (usize, u32)
    ensures { AnswersPulls router.old router.new device moment packets.old packets.new result.0 result.1 }
{
    let Some(live) = &mut router.live else {
        return (0, RECLAIMED);
    };
    if let Some(status) = refusal(live.router(), device, moment) {
        return (0, status);
    }
    let places = packets.len();
    let given = pull_on(live, device, moment, packets);
    (given, given_status(given, places))
}

// Pulls a device that can be pulled at this moment again and again. Returns how many packets were emitted.
fn pull_on(live: &mut Live, device: u16, moment: u64, packets: &mut [CEmitted]) -> usize
    requires can { CanPull live.old.course device moment }
    ensures { PullsMany device moment live.old live.new packets.old packets.new result }
{
    let mut given = 0;
    while given < packets.len() {
        let Some(one) = live.pull(device, moment) else {
            return given;
        };
        packets[given] = emitted_for_c(one);
        given += 1;
        if !live.router().can_pull(device, moment) {
            return given;
        }
    }
    given
}
