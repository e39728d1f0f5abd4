//! Opening and closing routers.

ghost use Rattle.std.specs.Prelude.{◌≡◌, ◌⊎◌, None, IfOk, IfErr};
ghost use Rattle.clickpull_c.specs.Opens.{IsFaulty, IsGiven, Opens};
ghost use Rattle.clickpull_c.specs.declared.statuses.TheConstants.{OK};
ghost use Rattle.clk_packet.specs.declared.fault.Fault.TheVariants.{Memory};
ghost use Rattle.clk_syntax.specs.Reading.{HasFault};

use crate::handle::{Handle, Place, demand_send};
use crate::statuses::{FAULT, OK};
use crate::values::{CFault, fault_for_c};
use clk_packet::Fault;
use clk_router::CountingRouter;
use clk_tree::Plan;
use std::alloc::Global;

/// Opens the router of the plan that a text in Click's language denotes, before anything has happened, and puts it into an empty place. If
/// the text denotes no plan, or an allocation fails, it fills in the fault.
#[unsafe(no_mangle)]
pub extern "C" fn clk_router_open(
    alloc: Global,
    text: &[u8],
    router: &mut Place,
    fault: &mut CFault,
) -> u32
    requires empty { router.old.router ≡ None }
    ensures answer { ((result ≡ OK) × IsGiven text.now router.new.router × (fault.new ≡ fault.old)) ⊎ (IsFaulty text.now fault.new result × (router.new ≡ router.old)) }
{
    match open(alloc, text) {
        Ok(handle) => {
            *router = Place::of(handle);
            OK
        }
        Err(why) => {
            *fault = fault_for_c(why);
            FAULT
        }
    }
}

/// Opens the router of the plan that this text denotes, as a handle.
fn open(alloc: Global, text: &[u8]) -> Result<Handle, Fault>
    ensures opened { IfOk result (λ handle. Opens text.now handle.router) }
    ensures fault { IfErr result (λ fault. (fault ≡ Memory) ⊎ HasFault text.now fault) }
{
    let plan = Plan::read(alloc, text)?;
    let router = CountingRouter::open(alloc, &plan)?;
    Ok(Handle::of(Box::new(alloc, router)?))
}

/// Frees all that a router has, with the packets in its queues.
#[unsafe(no_mangle)]
pub extern "C" fn clk_router_close(router: Handle) {
    demand_send(&router);
    drop(router.into_box());
}
