//! A live router that C holds.

ghost use Rattle.std.specs.Prelude.{◌≡◌};
ghost use Rattle.std.specs.Borrow.{sem};
ghost use Rattle.clickpull_c.specs.declared.live.router.LiveRouter.{LiveRouter};
ghost use Rattle.clickpull_c.specs.inside.live.Handle.{live_handle_owns, live_coded};

mod place;

use super::router::LiveRouter;
use crate::parts::BoxParts;
pub use place::LivePlace;
use std::alloc::Global;
use std::marker::Model;

/// A live router that C holds: a pointer to it, which owns it as a box does. In C it is the struct `clk_live`, whose `at` isn't null.
#[repr(C)]
pub struct LiveHandle {
    at: *mut u8,
    alloc: Global,
    pub ghost router: { LiveRouter } by { live_coded },
}

impl Model for LiveHandle {
    ghost also_owns = { λ handle. live_handle_owns handle.alloc handle.at handle.router };
}

impl LiveHandle {
    ghost use Rattle.clickpull_c.specs.inside.live.Follows.{live_handle_follows};

    /// The handle of a live router.
    pub(crate) fn of(router: Box<LiveRouter>) -> LiveHandle
        ensures { result.router ≡ router.value }
    {
        LiveHandle::of_parts(BoxParts::of(router))
    }

    /// The live router of a handle.
    pub(crate) fn into_box(self) -> Box<LiveRouter>
        ensures { result.value ≡ self.router }
    {
        self.into_parts().into_box()
    }

    /// The live router.
    pub(crate) fn get_mut(&mut self) -> &mut LiveRouter
        ensures* writes_back { sem 𝓛 (live_handle_follows self.entry result) }
        ensures value { result.now ≡ self.old.router }
    {
        unsafe { &mut *self.at.cast() }
    }

    fn of_parts(parts: BoxParts<LiveRouter, Global>) -> LiveHandle
        ensures { result.router ≡ parts.value }
    {
        let BoxParts { ptr, alloc } = parts;
        LiveHandle {
            at: ptr.cast(),
            alloc,
        }
    }

    fn into_parts(self) -> BoxParts<LiveRouter, Global>
        ensures { result.value ≡ self.router }
    {
        let LiveHandle { at, alloc } = self;
        BoxParts {
            ptr: at.cast(),
            alloc,
        }
    }
}

unsafe impl Send for LiveHandle {}
