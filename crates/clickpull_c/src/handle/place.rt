//! A place for a router, in the hands of C.

ghost use Rattle.std.specs.Prelude.{◌≡◌, Option, Some};
ghost use Rattle.clk_router.specs.declared.counting.CountingRouter.{CountingRouter};
ghost use Rattle.clickpull_c.specs.inside.Place.{place_owns, place_coded};

use super::Handle;
use std::alloc::Global;
use std::marker::Model;

/// A place that C has for a router: it is empty, or it has one. In C it is the struct `clk_router` too. If it has a router, it is that
/// router's `Handle`. If it is empty, its bytes may be anything.
// A drop forgets the router. Only empty places are dropped here.
#[repr(C)]
#[derive(Drop)]
pub struct Place {
    at: *mut u8,
    alloc: Global,
    pub ghost router: { Option CountingRouter } by { place_coded },
}

impl Model for Place {
    ghost also_owns = { λ place. place_owns place.alloc place.at place.router };
}

impl Place {
    /// A place that has this router.
    pub(crate) fn of(handle: Handle) -> Place
        ensures { result.router ≡ Some handle.router }
    {
        let Handle { at, alloc } = handle;
        Place { at, alloc }
    }
}
