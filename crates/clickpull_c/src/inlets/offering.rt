//! What a sender does with its inlet: it offers packets, asks for the room, and ends it.

ghost use Rattle.std.specs.Prelude.{◌≡◌, ◌⊎◌, ◌+◌, ◌<◌, ◌≤◌, true, false, length, map, take, IsOk, IfOk, IfErr, OnErr};
ghost use Rattle.clk_inlet.specs.Items.{has_end};
ghost use Rattle.clk_inlet.specs.Halves.{pushed, fits, AreHalves};
ghost use Rattle.clk_inlet.specs.declared.outlet.Outlet.{Outlet};
ghost use Rattle.clickpull_c.specs.Answers.{IsLength};
ghost use Rattle.clickpull_c.specs.Inlets.{Accepts, AcceptsMany, EndsBatch, RefusesPacket};
ghost use Rattle.clickpull_c.specs.declared.statuses.TheConstants.{OK};

use super::handle::InletHandle;
use crate::handle::demand_send;
use crate::statuses::{AT_END, BAD_LENGTH, FULL, OK};
use crate::values::is_length;
use clk_inlet::{Inlet, Item, Refusal};

/// Offers a packet of this length in bytes, with a token of the caller's. Fills in the packet's number: how many packets the inlet accepted
/// before it.
#[unsafe(no_mangle)]
pub extern "C" fn clk_raw_inlet_offer(
    inlet: &mut InletHandle,
    length: u32,
    token: u64,
    number: &mut u32,
) -> u32
    ensures answer { ((result ≡ OK) × Accepts inlet.old.inlet inlet.new.inlet length token number.new) ⊎ (RefusesPacket inlet.new.inlet length result × (pushed inlet.new.inlet ≡ pushed inlet.old.inlet) × (number.new ≡ number.old)) }
    ensures succeeds { IsLength length → 0 < fits inlet.old.inlet → result ≡ OK }
    ensures fits { fits inlet.old.inlet ≤ fits inlet.new.inlet + 1 }
    ensures halves { (o : Outlet) → AreHalves inlet.old.inlet o → AreHalves inlet.new.inlet o }
    ensures stays { inlet.new.at ≡ inlet.old.at }
{
    match offer(inlet.get_mut(), length, token) {
        Ok(at) => {
            *number = at;
            OK
        }
        Err(status) => status,
    }
}

/// Offers a batch of packets, in order, up to the first that is refused. Fills in how many were accepted. In C an item is the struct
/// `clk_item`.
#[unsafe(no_mangle)]
pub extern "C" fn clk_raw_inlet_offer_many(
    inlet: &mut InletHandle,
    items: &[Item],
    done: &mut usize,
) -> u32
    ensures accepted { AcceptsMany inlet.old.inlet inlet.new.inlet items.now done.new }
    ensures ends { EndsBatch inlet.new.inlet items.now done.new result }
    ensures fits { fits inlet.old.inlet ≤ fits inlet.new.inlet + done.new }
    ensures halves { (o : Outlet) → AreHalves inlet.old.inlet o → AreHalves inlet.new.inlet o }
    ensures stays { inlet.new.at ≡ inlet.old.at }
{
    let (accepted, status) = offer_each(inlet.get_mut(), items);
    *done = accepted;
    status
}

/// Reads the ring, and returns how many packets are sure to fit now. That is 0 once the inlet accepts no more packets.
#[unsafe(no_mangle)]
pub extern "C" fn clk_raw_inlet_room(inlet: &mut InletHandle) -> usize
    ensures room { result ≡ fits inlet.new.inlet }
    ensures unchanged { pushed inlet.new.inlet ≡ pushed inlet.old.inlet }
    ensures fits { fits inlet.old.inlet ≤ fits inlet.new.inlet }
    ensures halves { (o : Outlet) → AreHalves inlet.old.inlet o → AreHalves inlet.new.inlet o }
    ensures stays { inlet.new.at ≡ inlet.old.at }
{
    inlet.get_mut().room()
}

/// Ends an inlet, so that no packet follows, and frees its handle. Never fails, and never waits.
#[unsafe(no_mangle)]
pub extern "C" fn clk_raw_inlet_close(inlet: InletHandle) {
    demand_send(&inlet);
    let mut inlet = inlet.into_box();
    inlet.end();
    free(inlet);
}

// Frees the sender's half of a ring whose end was pushed.
fn free(inlet: Box<Inlet>)
    requires ended { has_end (pushed inlet.value) ≡ true }
{
    drop(inlet);
}

// Offers a packet to this inlet. Returns its number, or the status that says why it is refused.
fn offer(inlet: &mut Inlet, length: u32, token: u64) -> Result<u32, u32>
    ensures accepted { IfOk result (Accepts inlet.old inlet.new length token) }
    ensures refused { IfErr result (RefusesPacket inlet.new length) }
    ensures unchanged { OnErr result ((pushed inlet.new ≡ pushed inlet.old) × (fits inlet.old ≤ fits inlet.new)) }
    ensures succeeds { IsLength length → 0 < fits inlet.old → IsOk result }
    ensures fits { fits inlet.old ≤ fits inlet.new + 1 }
    ensures halves { (o : Outlet) → AreHalves inlet.old o → AreHalves inlet.new o }
{
    if !is_length(length) {
        return Err(BAD_LENGTH);
    }
    match inlet.offer(length as u16, token) {
        Ok(number) => Ok(number),
        Err(Refusal::Full) => Err(FULL),
        Err(Refusal::AtEnd) => Err(AT_END),
    }
}

// Offers these items to this inlet, in order, up to the first that is refused. Returns how many were accepted, and the status.
fn offer_each(inlet: &mut Inlet, items: &[Item]) -> (usize, u32)
    ensures accepted { AcceptsMany inlet.old inlet.new items.now result.0 }
    ensures ends { EndsBatch inlet.new items.now result.0 result.1 }
    ensures fits { fits inlet.old ≤ fits inlet.new + result.0 }
    ensures halves { (o : Outlet) → AreHalves inlet.old o → AreHalves inlet.new o }
{
    let mut done = 0;
    while done < items.len() {
        let (_, rest) = items.split_at(done);
        done += inlet.offer_many(rest);
        if done == items.len() {
            return (done, OK);
        }
        // The next item is offered alone: if it is refused, this says why.
        match offer(inlet, items[done].length, items[done].token) {
            Ok(_) => done += 1,
            Err(status) => return (done, status),
        }
    }
    (done, OK)
}
