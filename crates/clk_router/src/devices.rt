//! The devices of a router.

ghost use Rattle.std.specs.Prelude.{◌≡◌, map, IfOk, IsOkUnless};
ghost use Rattle.std.specs.List.{AllByRecursion};
ghost use Rattle.clk_router.specs.inside.Parts.{device_made, CanStand};

use clk_packet::{Fault, Offered};
use clk_sched::{Keeps, Session, Tree};
use std::alloc::Global;

/// A device, with the log of its pulls.
#[derive(Drop)]
pub struct RouterDevice {
    /// Its tree, with the log of its pulls and the packets that it emitted, as far as these are kept.
    pub session: Session,
    /// How many packets its queues accepted and didn't evict for later ones.
    pub kept: u64,
}

impl RouterDevice {
    ghost use Rattle.std.specs.Prelude.{◌≡◌, ◌+◌, ◌<◌};
    ghost use Rattle.clk_router.specs.declared.limits.TheConstants.{END_OF_PACKETS};
    ghost use Rattle.clk_router.specs.inside.Parts.{kept_by};

    /// Counts an offer with this outcome to one of its queues.
    pub fn count(&mut self, outcome: Offered)
        requires { self.old.kept < END_OF_PACKETS }
        ensures kept { self.new.kept ≡ self.old.kept + kept_by outcome }
        ensures session { self.new.session ≡ self.old.session }
    {
        if let Offered::Accepted = outcome {
            self.kept += 1;
        }
    }
}

/// A device for each of these trees, before its first pull. `keeps` says what it keeps of the past. Fault 1 if an allocation fails.
pub fn devices_of(alloc: Global, trees: Vec<Tree>, keeps: Keeps) -> Result<Vec<RouterDevice>, Fault>
    requires each { AllByRecursion CanStand trees.items }
    ensures made { IfOk result (λ devices. devices.items ≡ map (device_made keeps) trees.items) }
    ensures fault { IsOkUnless result Fault.Memory }
{
    let mut devices = Vec::new(alloc);
    for tree in trees {
        devices.push(RouterDevice {
            session: Session::keeping(alloc, tree, keeps)?,
            kept: 0,
        })?;
    }
    Ok(devices)
}
