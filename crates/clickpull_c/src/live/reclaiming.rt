//! Reclaiming the tokens of packets inside a live router.

ghost use Rattle.std.specs.Prelude.{◌≡◌, None};
ghost use Rattle.clickpull_c.specs.live.Reclaims.{AreLeft, Reclaims};

use super::handle::LiveHandle;
use super::router::LiveRouter;
use crate::statuses::{NONE, OK};

/// Gives up the router, and fills in the tokens of all packets that are inside it, as many as find a place, queue by queue. In each queue
/// the packet comes first that would have been emitted first. A further call goes on from there. Tokens that wait in the inlets are not
/// among them.
#[unsafe(no_mangle)]
pub extern "C" fn clk_raw_live_reclaim(
    live: &mut LiveHandle,
    tokens: &mut [u64],
    given: &mut usize,
) -> u32
    ensures answer { Reclaims live.old.router live.new.router tokens.old tokens.new given.new result }
    ensures stays { live.new.at ≡ live.old.at }
{
    let (count, status) = reclaim(live.get_mut(), tokens);
    *given = count;
    status
}

// Gives up the router, and fills in tokens. Returns how many, and the status.
fn reclaim(router: &mut LiveRouter, tokens: &mut [u64]) -> (usize, u32)
    ensures { Reclaims router.old router.new tokens.old tokens.new result.0 result.1 }
{
    give_up(router);
    let mut given = 0;
    while given < tokens.len() {
        let Some(token) = router.reclaimed.take() else {
            return (given, OK);
        };
        tokens[given] = token;
        given += 1;
    }
    (given, NONE)
}

// Gives up the router, if it exists. Then the tokens of the packets inside are left to reclaim.
fn give_up(router: &mut LiveRouter)
    ensures left { AreLeft router.old router.new.reclaimed }
    ensures given_up { router.new.live ≡ None }
    ensures inlets { router.new.inlets ≡ router.old.inlets }
{
    if let Some(live) = router.live.take() {
        router.reclaimed = live.reclaim();
    }
}
