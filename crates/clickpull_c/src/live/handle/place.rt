//! A place that C has for a live router.

ghost use Rattle.std.specs.Prelude.{◌≡◌, Option, Some};
ghost use Rattle.clickpull_c.specs.declared.live.router.LiveRouter.{LiveRouter};
ghost use Rattle.clickpull_c.specs.inside.live.Place.{live_place_owns, live_place_coded};

use super::LiveHandle;
use std::alloc::Global;
use std::marker::Model;

/// A place that C has for a live router: it is empty, or it has one. In C it is the struct `clk_live` too. If it has a router, it is that
/// router's `LiveHandle`; if it is empty, it may be anything.
// A drop forgets a router that it has. Only empty ones are dropped here.
#[repr(C)]
#[derive(Drop)]
pub struct LivePlace {
    at: *mut u8,
    alloc: Global,
    pub ghost router: { Option LiveRouter } by { live_place_coded },
}

impl Model for LivePlace {
    ghost also_owns = { λ place. live_place_owns place.alloc place.at place.router };
}

impl LivePlace {
    /// A place that has this router.
    pub(crate) fn of(handle: LiveHandle) -> LivePlace
        ensures { result.router ≡ Some handle.router }
    {
        let LiveHandle { at, alloc } = handle;
        LivePlace { at, alloc }
    }
}
