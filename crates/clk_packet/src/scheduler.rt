//! The schedulers: their names in a tree text, and their arguments.

ghost use Rattle.std.specs.Prelude.{◌≡◌, IfOk};
ghost use Rattle.std.specs.Option.{option_map};
ghost use Rattle.clk_packet.specs.declared.scheduler.SchedulerName.TheVariants.{Drr, Shaper};
ghost use Rattle.clk_packet.specs.Scheduler.{scheduler_view, scheduler_with};

use crate::limits::{DEFAULT_QUANTUM, MAX_QUANTUM, MAX_RATE, MAX_TICKETS};
use std::alloc::{AllocError, Global};

/// The name of a scheduler.
#[derive(Clone, Copy, Debug, PartialEq, Eq)]
pub enum SchedulerName {
    Prio,
    RoundRobin,
    Drr,
    Stride,
    Shaper,
}

/// A scheduler with its arguments. A new scheduler begins here: the other crates use this list.
#[derive(Drop)]
pub enum Scheduler {
    /// Serves the first input that has a packet.
    Prio,
    /// Serves its inputs in turn.
    RoundRobin,
    /// Deficit round robin, with the quantum of each input in bytes. In a tree text one quantum is for all inputs.
    Drr(Vec<u32>),
    /// Stride scheduling, with the tickets of each input.
    Stride(Vec<u32>),
    /// A token bucket, with its rate in packets a tick and its burst in packets.
    Shaper(u32, u32),
}

impl SchedulerName {
    ghost use Rattle.std.specs.Prelude.{◌≡◌};
    ghost use Rattle.clk_packet.specs.Scheduler.{most_argument, name_text, scheduler_named};

    /// The name that a word of a tree text spells, if it spells one.
    pub fn named(word: &[u8]) -> Option<SchedulerName>
        ensures { result ≡ scheduler_named word.now }
    {
        if word == b"PrioSched".as_slice() {
            return Some(SchedulerName::Prio);
        }
        if word == b"RoundRobinSched".as_slice() {
            return Some(SchedulerName::RoundRobin);
        }
        if word == b"DRRSched".as_slice() {
            return Some(SchedulerName::Drr);
        }
        if word == b"StrideSched".as_slice() {
            return Some(SchedulerName::Stride);
        }
        if word == b"Shaper".as_slice() {
            return Some(SchedulerName::Shaper);
        }
        None
    }

    /// How a tree text spells the name.
    pub fn text(self) -> &'static [u8]
        ensures { result.now ≡ name_text self }
    {
        match self {
            SchedulerName::Prio => b"PrioSched",
            SchedulerName::RoundRobin => b"RoundRobinSched",
            SchedulerName::Drr => b"DRRSched",
            SchedulerName::Stride => b"StrideSched",
            SchedulerName::Shaper => b"Shaper",
        }
    }

    /// The greatest argument, where 1 is the least. It is 0 for a scheduler without arguments.
    pub fn most_argument(self) -> u32
        ensures { result ≡ most_argument self }
    {
        match self {
            SchedulerName::Prio | SchedulerName::RoundRobin => 0,
            SchedulerName::Drr => MAX_QUANTUM,
            SchedulerName::Stride => MAX_TICKETS,
            SchedulerName::Shaper => MAX_RATE,
        }
    }
}

impl Scheduler {
    ghost use Rattle.std.specs.Prelude.{◌≡◌, ◌≤◌, length, IfOk, IfSome};
    ghost use Rattle.std.specs.Option.{option_map};
    ghost use Rattle.clk_packet.specs.Scheduler.{arguments_of, inputs_of, name_of, over_inputs, scheduler_view, scheduler_with};

    /// A scheduler with these arguments, if it takes so many. A DRRSched without any has a quantum of `DEFAULT_QUANTUM`, and a Shaper with
    /// one has its rate as its burst. Fails if an allocation does.
    pub fn with(name: SchedulerName, numbers: Vec<u32>) -> Result<Option<Scheduler>, AllocError>
        ensures { IfOk result (λ scheduler. option_map scheduler_view scheduler ≡ scheduler_with name numbers.items) }
    {
        match name {
            SchedulerName::Prio if numbers.is_empty() => Ok(Some(Scheduler::Prio)),
            SchedulerName::RoundRobin if numbers.is_empty() => Ok(Some(Scheduler::RoundRobin)),
            SchedulerName::Drr => drr_with(numbers),
            SchedulerName::Stride if !numbers.is_empty() => Ok(Some(Scheduler::Stride(numbers))),
            SchedulerName::Shaper => Ok(shaper_with(&numbers)),
            _ => Ok(None),
        }
    }

    /// Its name.
    pub fn name(&self) -> SchedulerName
        ensures { result ≡ name_of (scheduler_view self.now) }
    {
        match self {
            Scheduler::Prio => SchedulerName::Prio,
            Scheduler::RoundRobin => SchedulerName::RoundRobin,
            Scheduler::Drr(_) => SchedulerName::Drr,
            Scheduler::Stride(_) => SchedulerName::Stride,
            Scheduler::Shaper(_, _) => SchedulerName::Shaper,
        }
    }

    /// Its arguments, all of them. Fails if an allocation does.
    pub fn arguments(&self, alloc: Global) -> Result<Vec<u32>, AllocError>
        ensures { IfOk result (λ numbers. numbers.items ≡ arguments_of (scheduler_view self.now)) }
    {
        match self {
            Scheduler::Prio | Scheduler::RoundRobin => Ok(Vec::new(alloc)),
            Scheduler::Drr(numbers) | Scheduler::Stride(numbers) => numbers.to_vec(alloc),
            Scheduler::Shaper(rate, burst) => Vec::from_slice(alloc, &[*rate, *burst]),
        }
    }

    /// How many inputs it has by its arguments, or none if it has as many as are connected.
    pub fn inputs(&self) -> Option<usize>
        ensures inputs { result ≡ inputs_of (scheduler_view self.now) }
        ensures few { IfSome result (λ inputs. inputs ≤ length (arguments_of (scheduler_view self.now))) }
    {
        match self {
            Scheduler::Prio | Scheduler::RoundRobin => None,
            Scheduler::Drr(quanta) => match quanta.len() {
                0 | 1 => None,
                inputs => Some(inputs),
            },
            Scheduler::Stride(tickets) => Some(tickets.len()),
            Scheduler::Shaper(_, _) => Some(1),
        }
    }

    /// A copy with arguments for so many inputs: a single quantum is for each of them. Fails if an allocation does.
    pub fn over(&self, alloc: Global, inputs: usize) -> Result<Scheduler, AllocError>
        ensures { IfOk result (λ over. scheduler_view over ≡ over_inputs (scheduler_view self.now) inputs) }
    {
        match self {
            Scheduler::Drr(quanta) => match quanta.as_slice() {
                [quantum] => Ok(Scheduler::Drr(vec![in alloc; *quantum; inputs]?)),
                _ => self.copy(alloc),
            },
            _ => self.copy(alloc),
        }
    }

    /// A copy. Fails if an allocation does.
    pub fn copy(&self, alloc: Global) -> Result<Scheduler, AllocError>
        ensures { IfOk result (λ copy. scheduler_view copy ≡ scheduler_view self.now) }
    {
        match self {
            Scheduler::Prio => Ok(Scheduler::Prio),
            Scheduler::RoundRobin => Ok(Scheduler::RoundRobin),
            Scheduler::Drr(quanta) => Ok(Scheduler::Drr(quanta.to_vec(alloc)?)),
            Scheduler::Stride(tickets) => Ok(Scheduler::Stride(tickets.to_vec(alloc)?)),
            Scheduler::Shaper(rate, burst) => Ok(Scheduler::Shaper(*rate, *burst)),
        }
    }
}

fn drr_with(mut quanta: Vec<u32>) -> Result<Option<Scheduler>, AllocError>
    ensures { IfOk result (λ scheduler. option_map scheduler_view scheduler ≡ scheduler_with Drr quanta.items) }
{
    if quanta.is_empty() {
        quanta.push(DEFAULT_QUANTUM)?;
    }
    Ok(Some(Scheduler::Drr(quanta)))
}

fn shaper_with(numbers: &[u32]) -> Option<Scheduler>
    ensures { option_map scheduler_view result ≡ scheduler_with Shaper numbers.now }
{
    match numbers {
        [rate] => Some(Scheduler::Shaper(*rate, *rate)),
        [rate, burst] => Some(Scheduler::Shaper(*rate, *burst)),
        _ => None,
    }
}
