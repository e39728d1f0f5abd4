//! What has happened to a router, as contracts see it.
ghost use Rattle.std.specs.Prelude.{◌≡◌, ◌++◌, List, [], ◌∷◌};
ghost use Rattle.std.specs.Borrow.{ftrue};
ghost use Rattle.std.specs.Coded.{coded_list};
ghost use Rattle.clk_router.specs.Events.{Setup, plan_setup, Event, offered};
ghost use Rattle.clk_router.specs.Stored.{setup_code, event_code};
ghost use Rattle.clk_router.specs.inside.Past.{nothing, trees_in, pull_shown, pulls_shown};

use crate::devices::RouterDevice;
use crate::parts::Parts;
use clk_packet::{Offered, Packet};
use clk_tree::Plan;
use std::marker::Model;

/// The setup of a router and all its events: ghost state, which only contracts read and which occupies no memory.
#[derive(Drop)]
pub struct Past {
    /// What the router was made over.
    pub ghost setup: { Setup } by { setup_code },
    /// All events, in order.
    pub ghost events: { List Event } by { coded_list event_code },
}

impl Model for Past {
    ghost also_owns = { λ _. ftrue };
}

unsafe impl Send for Past {}

impl Past {
    /// No events, over an empty setup.
    pub fn none() -> Past
        ensures { result ≡ record { setup = nothing; events = [] } }
    {
        Past {}
    }

    /// Begins over a plan, whose parts these are: nothing has happened yet.
    pub fn begin(&mut self, plan: &Plan, parts: &Parts)
        ensures { self.new ≡ record { setup = plan_setup (trees_in parts.now) plan.now; events = [] } }
    {}

    /// A packet was offered, with this outcome.
    pub fn offered(&mut self, packet: &Packet, outcome: &Offered)
        ensures { self.new ≡ record { setup = self.old.setup; events = self.old.events ++ offered packet.now outcome.now ∷ [] } }
    {}

    /// The device with this number was pulled once, at this moment. `device` is its state now.
    pub fn pulled(&mut self, number: &u16, moment: &u64, device: &RouterDevice)
        ensures { self.new ≡ record { setup = self.old.setup; events = self.old.events ++ pull_shown self.old.setup self.old.events number.now moment.now device.now.session } }
    {}

    /// The device with this number was drained, from this moment on. `device` is its state now.
    pub fn closed(&mut self, number: &u16, moment: &u64, device: &RouterDevice)
        ensures { self.new ≡ record { setup = self.old.setup; events = self.old.events ++ pulls_shown self.old.setup self.old.events number.now moment.now device.now.session } }
    {}
}
