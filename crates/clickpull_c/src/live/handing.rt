//! Handing out inlets.

ghost use Rattle.std.specs.Prelude.{◌≡◌, ◌⊎◌, Some, None, IfOk, IfErr, OnErr, IfSome};
ghost use Rattle.clk_router.specs.Course.{sender_at};
ghost use Rattle.clickpull_c.specs.Answers.{IsUnknown};
ghost use Rattle.clickpull_c.specs.live.Handing.{HandsOut, RefusesInlet};
ghost use Rattle.clickpull_c.specs.live.State.{IsUnchanged};
ghost use Rattle.clickpull_c.specs.declared.statuses.TheConstants.{OK};

use super::handle::LiveHandle;
use super::router::LiveRouter;
use crate::inlets::{InletHandle, InletPlace};
use crate::offering::place_of;
use crate::statuses::{HANDED_OUT, OK, RECLAIMED, UNKNOWN_SENDER};
use clk_inlet::Inlet;
use clk_router::CountingRouter;

/// Hands out the inlet of the sender with this number, and puts it into an empty place. It does so once for each sender, and allocates
/// nothing.
#[unsafe(no_mangle)]
pub extern "C" fn clk_raw_live_inlet(
    live: &mut LiveHandle,
    sender: u32,
    inlet: &mut InletPlace,
) -> u32
    requires empty { inlet.old.inlet ≡ None }
    ensures answer { HandsOut live.old.router live.new.router sender inlet.new.inlet result ⊎ (RefusesInlet live.old.router sender result × IsUnchanged live.old.router live.new.router × (inlet.new ≡ inlet.old)) }
    ensures stays { live.new.at ≡ live.old.at }
{
    match claim(live.get_mut(), sender) {
        Ok(claimed) => {
            *inlet = InletPlace::of(InletHandle::of(claimed));
            OK
        }
        Err(status) => status,
    }
}

/// Takes the inlet of a sender out of the router, or returns the status that says why not.
fn claim(router: &mut LiveRouter, sender: u32) -> Result<Box<Inlet>, u32>
    ensures claimed { IfOk result (λ b. HandsOut router.old router.new sender (Some b.value) OK) }
    ensures refused { IfErr result (RefusesInlet router.old sender) }
    ensures unchanged { OnErr result (IsUnchanged router.old router.new) }
{
    let Some(live) = &router.live else {
        return Err(RECLAIMED);
    };
    let Some(place) = index_of(live.router(), sender) else {
        return Err(UNKNOWN_SENDER);
    };
    if place >= router.inlets.len() {
        return Err(HANDED_OUT);
    }
    match router.inlets[place].take() {
        Some(inlet) => Ok(inlet),
        None => Err(HANDED_OUT),
    }
}

/// The place of the sender with this number, if there is one, as an index.
pub(super) fn index_of(router: &CountingRouter, sender: u32) -> Option<usize>
    ensures found { IfSome result (λ place. sender_at router.now.setup place ≡ Some sender) }
    ensures missing { result ≡ None → IsUnknown router.now sender }
{
    let place = place_of(router, sender)?;
    Some(usize::from(place))
}
