//! What the ports of an element are.

use crate::limits::MAX_PORT;
use crate::naming::class::Role;

impl Role {
    ghost use Rattle.std.specs.Prelude.{◌≡◌, Some};
    ghost use Rattle.clk_syntax.specs.Ports.{is_source, is_queue, is_device, is_scheduler, has_output, has_input};
    ghost use Rattle.clk_syntax.specs.Tables.{inputs_with};

    /// Whether it has a push output.
    pub fn is_source(self) -> bool
        ensures { result ≡ is_source (Some self) }
    {
        match self {
            Role::Source => true,
            Role::Queue | Role::Scheduler | Role::SchedulerOf(_) | Role::Device => false,
        }
    }

    /// Whether it has a push input.
    pub fn is_queue(self) -> bool
        ensures { result ≡ is_queue (Some self) }
    {
        match self {
            Role::Queue => true,
            Role::Source | Role::Scheduler | Role::SchedulerOf(_) | Role::Device => false,
        }
    }

    /// Whether it is a scheduler or Shaper.
    pub fn is_scheduler(self) -> bool
        ensures { result ≡ is_scheduler (Some self) }
    {
        match self {
            Role::Scheduler | Role::SchedulerOf(_) => true,
            Role::Source | Role::Queue | Role::Device => false,
        }
    }

    /// Whether it is a device.
    pub fn is_device(self) -> bool
        ensures { result ≡ is_device (Some self) }
    {
        match self {
            Role::Device => true,
            Role::Source | Role::Queue | Role::Scheduler | Role::SchedulerOf(_) => false,
        }
    }

    /// Whether it has this output.
    pub fn has_output(self, output: u32) -> bool
        ensures { result ≡ has_output (Some self) output }
    {
        match self {
            Role::Device => false,
            Role::Source | Role::Queue | Role::Scheduler | Role::SchedulerOf(_) => output == 0,
        }
    }

    /// Whether it has this input.
    pub fn has_input(self, input: u32) -> bool
        ensures { result ≡ has_input (Some self) input }
    {
        match self {
            Role::Source => false,
            Role::Queue | Role::Device => input == 0,
            Role::Scheduler => input <= MAX_PORT,
            Role::SchedulerOf(inputs) => input < inputs && input <= MAX_PORT,
        }
    }

    /// How many pull inputs it has. `end` is how many it has if it has as many as are connected.
    pub fn inputs_with(self, end: u32) -> u32
        ensures { result ≡ inputs_with self end }
    {
        match self {
            Role::Source | Role::Queue => 0,
            Role::Scheduler => end.max(1),
            Role::SchedulerOf(inputs) => inputs,
            Role::Device => 1,
        }
    }
}
