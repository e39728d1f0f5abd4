//! Opening and closing live routers.

ghost use Rattle.std.specs.Prelude.{◌≡◌, ◌≤◌, ◌⊎◌, None, Some, map, IfOk, IfErr, IsOkUnless};
ghost use Rattle.std.specs.Option.{option_map};
ghost use Rattle.clk_inlet.specs.declared.limits.TheConstants.{MAX_ROOM};
ghost use Rattle.clk_packet.specs.declared.fault.Fault.TheVariants.{Memory};
ghost use Rattle.clk_syntax.specs.Reading.{HasFault};
ghost use Rattle.clickpull_c.specs.declared.statuses.TheConstants.{OK};
ghost use Rattle.clickpull_c.specs.live.Opens.{IsGivenLive, OpensLive, RefusesOpen};

use super::handle::{LiveHandle, LivePlace};
use super::router::LiveRouter;
use super::taking::FREE_SLOTS;
use crate::handle::demand_send;
use crate::statuses::{BAD_ROOM, FAULT, OK};
use crate::values::{CFault, fault_for_c};
use clk_inlet::{Inlet, MAX_ROOM};
use clk_live::{Live, Reclaimed};
use clk_packet::Fault;
use clk_tree::Plan;
use std::alloc::Global;

/// Opens a live router over the plan that a text in Click's language denotes, and puts it into an empty place. It has an inlet for each
/// sender, with room for `room` packets. If the text denotes no plan, or an allocation fails, it fills in the fault.
#[unsafe(no_mangle)]
pub extern "C" fn clk_raw_live_open(
    alloc: Global,
    text: &[u8],
    room: u32,
    live: &mut LivePlace,
    fault: &mut CFault,
) -> u32
    requires empty { live.old.router ≡ None }
    ensures answer { ((result ≡ OK) × IsGivenLive text.now room live.new.router × (fault.new ≡ fault.old)) ⊎ (RefusesOpen text.now room fault.old fault.new result × (live.new ≡ live.old)) }
{
    if room == 0 || room > MAX_ROOM {
        return BAD_ROOM;
    }
    match open(alloc, text, room) {
        Ok(handle) => {
            *live = LivePlace::of(handle);
            OK
        }
        Err(why) => {
            *fault = fault_for_c(why);
            FAULT
        }
    }
}

/// Opens a live router over the plan that this text denotes, as a handle.
fn open(alloc: Global, text: &[u8], room: u32) -> Result<LiveHandle, Fault>
    requires room { (1 ≤ room) × (room ≤ MAX_ROOM) }
    ensures opened { IfOk result (λ handle. OpensLive text.now room handle.router) }
    ensures fault { IfErr result (λ fault. (fault ≡ Memory) ⊎ HasFault text.now fault) }
{
    let plan = Plan::read(alloc, text)?;
    let (live, inlets) = Live::open(alloc, &plan, room)?;
    let inlets = box_each(alloc, inlets)?;
    let router = LiveRouter {
        live: Some(live),
        inlets,
        reclaimed: Reclaimed::none(alloc),
        slots: FREE_SLOTS,
    };
    Ok(LiveHandle::of(Box::new(alloc, router)?))
}

/// Puts each inlet into a box, so that handing it out allocates nothing.
fn box_each(alloc: Global, inlets: Vec<Inlet>) -> Result<Vec<Option<Box<Inlet>>>, Fault>
    ensures boxed { IfOk result (λ boxed. map (option_map (λ b. b.value)) boxed.items ≡ map Some inlets.items) }
    ensures fault { IsOkUnless result Memory }
{
    let mut boxed = Vec::new(alloc);
    for inlet in inlets {
        boxed.push(Some(Box::new(alloc, inlet)?))?;
    }
    Ok(boxed)
}

/// Frees all that a live router has. Ends the inlets that were not handed out.
#[unsafe(no_mangle)]
pub extern "C" fn clk_raw_live_close(live: LiveHandle) {
    demand_send(&live);
    drop(live.into_box());
}
