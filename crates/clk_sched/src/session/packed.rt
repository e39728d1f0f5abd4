//! Logs of visits that take less memory than lists of them.

ghost use Rattle.std.specs.Prelude.{◌≡◌, ℕ, ◌+◌, ◌-◌, ◌<◌, ◌≤◌, ◌^◌, ◌++◌, ◌∷◌, [], map, length, IfOk, OnOk, IsSome, IfSome, IsOkUnless};
ghost use Rattle.clk_sched.specs.Packed.{unpacked, logged, HasRoomFor};
ghost use Rattle.clk_sched.specs.Results.{emitted};
ghost use Rattle.clk_sched.specs.inside.Logged.{idle_visits};

use crate::session::idle::IdleInputs;
use crate::session::prio::DEVICE;
use crate::visit::Visit;
use clk_packet::{Fault, Packet};
use std::alloc::{AllocError, Global};

/// A visit whose pull and moment are below 2^32. It takes 28 bytes, and a `Visit` takes 40.
// The fields stand by size, as a visit's do.
#[derive(Clone, Copy, Debug, PartialEq, Eq)]
pub struct PackedVisit {
    pull: u32,
    moment: u32,
    got: Option<Packet>,
    node: u16,
    input: u16,
    fresh: bool,
    passed: bool,
}

impl PackedVisit {
    // This visit packed, if its pull and its moment are small enough.
    #[inline]
    fn of(visit: &Visit) -> Option<PackedVisit>
        ensures visit { IfSome result (λ packed. unpacked packed ≡ visit.now) }
        ensures small { visit.now.pull < 2 ^ 32 → visit.now.moment < 2 ^ 32 → IsSome result }
    {
        let pull = u32::try_from(visit.pull).ok()?;
        let moment = u32::try_from(visit.moment).ok()?;
        Some(PackedVisit {
            pull,
            moment,
            got: visit.got,
            node: visit.node,
            input: visit.input,
            fresh: visit.fresh,
            passed: visit.passed,
        })
    }

    /// The visit, unpacked.
    #[inline]
    pub fn unpack(&self) -> Visit
        ensures { result ≡ unpacked self.now }
    {
        Visit {
            pull: u64::from(self.pull),
            moment: u64::from(self.moment),
            got: self.got,
            node: self.node,
            input: self.input,
            fresh: self.fresh,
            passed: self.passed,
        }
    }
}

/// A log of visits, in order: those that are packed, and then the others. In a log that a session keeps packed, all visits are packed up to
/// the first whose pull or moment is 2^32 or more. That one and those behind it aren't packed.
#[derive(Drop)]
pub struct PackedLog {
    packed: Vec<PackedVisit>,
    rest: Vec<Visit>,
}

impl PackedLog {
    /// No visits.
    pub(crate) fn new(alloc: Global) -> PackedLog
        ensures { logged result ≡ [] }
    {
        PackedLog::of(alloc, Vec::new(alloc))
    }

    /// These visits, none of them packed.
    pub(crate) fn of(alloc: Global, visits: Vec<Visit>) -> PackedLog
        ensures { logged result ≡ visits.items }
    {
        PackedLog {
            packed: Vec::new(alloc),
            rest: visits,
        }
    }

    /// Makes room for so many more visits, whether they can be packed or not: which of the two lists will take them isn't known yet.
    ///
    /// # Errors
    ///
    /// If an allocation fails.
    #[inline]
    pub(crate) fn reserve(&mut self, visits: usize) -> Result<(), AllocError>
        ensures room { OnOk result (HasRoomFor visits self.new) }
        ensures few { OnOk result (length (logged self.new) + visits < 2 ^ 63) }
        ensures visits { logged self.new ≡ logged self.old }
        ensures no_less { (n : ℕ) → HasRoomFor n self.old → HasRoomFor n self.new }
    {
        self.rest.reserve(visits)?;
        // So that the length of both lists together can't overflow.
        self.packed.reserve(self.rest.len() + visits)
    }

    /// Makes room for so many more visits, as long as they can be packed.
    ///
    /// # Errors
    ///
    /// If an allocation fails.
    pub(crate) fn reserve_packed(&mut self, visits: usize) -> Result<(), AllocError>
        ensures visits { logged self.new ≡ logged self.old }
        ensures no_less { (n : ℕ) → HasRoomFor n self.old → HasRoomFor n self.new }
    {
        self.packed.reserve(visits)
    }

    /// Adds a visit, for which there is room.
    #[inline]
    pub(crate) fn push(&mut self, visit: Visit)
        requires { HasRoomFor 1 self.old }
        ensures visits { logged self.new ≡ logged self.old ++ visit ∷ [] }
        ensures room { (n : ℕ) → HasRoomFor n self.old → HasRoomFor (n - 1) self.new }
    {
        if self.rest.is_empty() {
            if let Some(packed) = PackedVisit::of(&visit) {
                self.packed.push_reserved(packed);
                return;
            }
        }
        self.rest.push_reserved(visit);
    }

    /// Adds the visits of inputs that gave nothing, for which there is room.
    pub(crate) fn push_idle(&mut self, idle: &IdleInputs)
        requires room { HasRoomFor idle.now.count self.old }
        requires within { idle.now.first + idle.now.count < 2 ^ 16 }
        ensures visits { logged self.new ≡ logged self.old ++ idle_visits idle.now }
        ensures room { (n : ℕ) → HasRoomFor n self.old → HasRoomFor (n - idle.now.count) self.new }
    {
        for place in 0..idle.count {
            self.push(idle.visit(place));
        }
    }

    /// Drops all visits, and keeps their memory.
    pub(crate) fn clear(&mut self)
        ensures visits { logged self.new ≡ [] }
        ensures room { (n : ℕ) → HasRoomFor n self.old → HasRoomFor n self.new }
    {
        self.packed.clear();
        self.rest.clear();
    }

    /// The visits that are packed, and those behind them.
    pub fn parts(&self) -> (&[PackedVisit], &[Visit])
        ensures { map unpacked result.0.now ++ result.1.now ≡ logged self.now }
    {
        (self.packed.as_slice(), self.rest.as_slice())
    }

    /// The packets that a session with this log emitted at the device, in order.
    ///
    /// # Errors
    ///
    /// Fault 1 if an allocation fails.
    pub fn emitted(&self, alloc: Global) -> Result<Vec<Packet>, Fault>
        ensures packets { IfOk result (λ packets. packets.items ≡ emitted (logged self.now)) }
        ensures fault { IsOkUnless result Fault.Memory }
    {
        let mut packets = Vec::new(alloc);
        for visit in &self.packed {
            add_emitted(&mut packets, &visit.unpack())?;
        }
        for visit in &self.rest {
            add_emitted(&mut packets, visit)?;
        }
        Ok(packets)
    }

    /// The visits as a list. Allocates if some are packed.
    ///
    /// # Errors
    ///
    /// Fault 1 if an allocation fails.
    pub fn into_vec(self, alloc: Global) -> Result<Vec<Visit>, Fault>
        ensures visits { IfOk result (λ visits. visits.items ≡ logged self) }
        ensures fault { IsOkUnless result Fault.Memory }
    {
        let PackedLog { packed, rest } = self;
        if packed.is_empty() {
            return Ok(rest);
        }
        let mut visits = Vec::with_capacity(alloc, packed.len() + rest.len())?;
        for visit in &packed {
            visits.push(visit.unpack())?;
        }
        visits.extend_from_slice(&rest)?;
        Ok(visits)
    }
}

/// Adds the packet that this visit emitted at the device, if any.
fn add_emitted(packets: &mut Vec<Packet>, visit: &Visit) -> Result<(), Fault>
    ensures added { OnOk result (packets.new.items ≡ packets.old.items ++ emitted (visit.now ∷ [])) }
    ensures fault { IsOkUnless result Fault.Memory }
{
    if visit.node != DEVICE {
        return Ok(());
    }
    if !visit.passed {
        return Ok(());
    }
    let Some(packet) = visit.got else {
        return Ok(());
    };
    packets.push(packet)?;
    Ok(())
}
