//! Pulls of devices.

ghost use Rattle.std.specs.Prelude.{◌≡◌, ◌⊎◌, None, length, IfSome, IfOk, IfErr, OnErr};
ghost use Rattle.clk_router.specs.Course.{CanPull, IsPulled};
ghost use Rattle.clickpull_c.specs.Answers.{RefusesPull};
ghost use Rattle.clickpull_c.specs.Calls.{AnswersPull, IsPulledOften, pulls_status};

use crate::handle::Handle;
use crate::statuses::{AT_END, NONE, OK, UNKNOWN_DEVICE};
use crate::values::{CPacket, packet_for_c};
use clk_packet::Packet;
use clk_router::{CountingRouter, Router};

/// Pulls the device with this number once, at this moment in ticks, or at the device's latest moment if that is later. Fills in the packet,
/// if one is emitted.
#[unsafe(no_mangle)]
pub extern "C" fn clk_router_pull(
    router: &mut Handle,
    device: u16,
    moment: u64,
    packet: &mut CPacket,
) -> u32
    ensures answer { AnswersPull router.old.router router.new.router device moment packet.old packet.new result ⊎ (RefusesPull router.old.router device moment result × (router.new.router ≡ router.old.router) × (packet.new ≡ packet.old)) }
    ensures stays { router.new.at ≡ router.old.at }
{
    match pull(router.get_mut(), device, moment) {
        Ok(Some(got)) => {
            *packet = packet_for_c(got);
            OK
        }
        Ok(None) => NONE,
        Err(status) => status,
    }
}

/// Pulls the device with this number at this moment, in ticks, until a pull emits none, all places for packets are filled, or no more pulls
/// can be made. Fills in how many packets were emitted.
#[unsafe(no_mangle)]
pub extern "C" fn clk_router_pull_many(
    router: &mut Handle,
    device: u16,
    moment: u64,
    packets: &mut [CPacket],
    given: &mut usize,
) -> u32
    ensures answer { (IsPulledOften router.old.router router.new.router device moment packets.old packets.new given.new × (result ≡ pulls_status given.new (length packets.old))) ⊎ (RefusesPull router.old.router device moment result × (router.new.router ≡ router.old.router) × (packets.new ≡ packets.old) × (given.new ≡ 0)) }
    ensures stays { router.new.at ≡ router.old.at }
{
    let count = packets.len();
    match pull_often(router.get_mut(), device, moment, packets) {
        Ok(emitted) => {
            *given = emitted;
            if emitted == 0 && count > 0 { NONE } else { OK }
        }
        Err(status) => {
            *given = 0;
            status
        }
    }
}

/// Pulls a device of this router again and again at this moment, if it can be pulled. Returns how many packets were emitted, or the status
/// that says why it can't be pulled.
fn pull_often(
    router: &mut CountingRouter,
    device: u16,
    moment: u64,
    packets: &mut [CPacket],
) -> Result<usize, u32>
    ensures pulled { IfOk result (IsPulledOften router.old router.new device moment packets.old packets.new) }
    ensures refused { IfErr result (RefusesPull router.old device moment) }
    ensures unchanged { OnErr result ((router.new ≡ router.old) × (packets.new ≡ packets.old)) }
{
    if let Some(status) = refusal(router, device, moment) {
        return Err(status);
    }
    Ok(pull_on(router, device, moment, packets))
}

/// Pulls a device that can be pulled at this moment again and again. Returns how many packets were emitted.
fn pull_on(router: &mut CountingRouter, device: u16, moment: u64, packets: &mut [CPacket]) -> usize
    requires can { CanPull router.old device moment }
    ensures { IsPulledOften router.old router.new device moment packets.old packets.new result }
{
    let mut given = 0;
    while given < packets.len() {
        let Some(packet) = router.pull(device, moment) else {
            return given;
        };
        packets[given] = packet_for_c(packet);
        given += 1;
        if !router.can_pull(device, moment) {
            return given;
        }
    }
    given
}

/// Pulls a device of this router once, if it can be pulled. Returns the packet, if one was emitted, or the status that says why it can't be
/// pulled.
fn pull(router: &mut CountingRouter, device: u16, moment: u64) -> Result<Option<Packet>, u32>
    ensures pulled { IfOk result (IsPulled router.old router.new device moment) }
    ensures refused { IfErr result (RefusesPull router.old device moment) }
    ensures unchanged { OnErr result (router.new ≡ router.old) }
{
    if let Some(status) = refusal(router, device, moment) {
        return Err(status);
    }
    Ok(router.pull(device, moment))
}

/// Why a device can't be pulled at this moment, if it can't.
pub(crate) fn refusal(router: &Router, device: u16, moment: u64) -> Option<u32>
    ensures refused { IfSome result (RefusesPull router.now device moment) }
    ensures can { result ≡ None → CanPull router.now device moment }
{
    if usize::from(device) >= router.devices() {
        return Some(UNKNOWN_DEVICE);
    }
    if !router.can_pull(device, moment) {
        return Some(AT_END);
    }
    None
}
