//! A router in the hands of C.

ghost use Rattle.std.specs.Prelude.{◌≡◌};
ghost use Rattle.std.specs.Borrow.{sem};
ghost use Rattle.clk_router.specs.declared.counting.CountingRouter.{CountingRouter};
ghost use Rattle.clickpull_c.specs.inside.Handle.{handle_owns, router_coded};

mod place;

use crate::parts::BoxParts;
use clk_router::CountingRouter;
pub use place::Place;
use std::alloc::Global;
use std::marker::Model;

/// A router that C holds: a pointer to it, which owns it as a box does. In C it is the struct `clk_router`, whose `at` isn't null.
#[repr(C)]
pub struct Handle {
    at: *mut u8,
    alloc: Global,
    pub ghost router: { CountingRouter } by { router_coded },
}

impl Model for Handle {
    ghost also_owns = { λ handle. handle_owns handle.alloc handle.at handle.router };
}

impl Handle {
    ghost use Rattle.clickpull_c.specs.inside.Follows.{handle_follows};

    /// The handle of a router.
    pub(crate) fn of(router: Box<CountingRouter>) -> Handle
        ensures { result.router ≡ router.value }
    {
        Handle::of_parts(BoxParts::of(router))
    }

    /// The router of a handle.
    pub(crate) fn into_box(self) -> Box<CountingRouter>
        ensures { result.value ≡ self.router }
    {
        self.into_parts().into_box()
    }

    /// The router. Calls that only read take it this way too, since no export takes a struct that lends what it owns.
    pub(crate) fn get_mut(&mut self) -> &mut CountingRouter
        ensures* writes_back { sem 𝓛 (handle_follows self.entry result) }
        ensures value { result.now ≡ self.old.router }
    {
        unsafe { &mut *self.at.cast() }
    }

    fn of_parts(parts: BoxParts<CountingRouter, Global>) -> Handle
        ensures { result.router ≡ parts.value }
    {
        let BoxParts { ptr, alloc } = parts;
        Handle {
            at: ptr.cast(),
            alloc,
        }
    }

    fn into_parts(self) -> BoxParts<CountingRouter, Global>
        ensures { result.value ≡ self.router }
    {
        let Handle { at, alloc } = self;
        BoxParts {
            ptr: at.cast(),
            alloc,
        }
    }
}

unsafe impl Send for Handle {}

/// Demands that a value may go to another thread. Does nothing.
pub(crate) fn demand_send<T: Send>(_value: &T) {}
