//! What the nodes of a tree hold from pull to pull.

ghost use Rattle.std.specs.Prelude.{◌+◌, ◌<◌, ◌≤◌};

use crate::session::drr::Deficits;
use crate::session::round_robin::Beginning;
use crate::session::shaper::Bucket;
use crate::session::stride::Passes;

/// What a node holds from pull to pull, by its class. The device holds nothing, as a PrioSched.
// What is taken out for a turn stands in a box, so that the turn moves a pointer and not all of it.
#[derive(Drop)]
pub enum State {
    Prio,
    RoundRobin(Beginning),
    Drr(Box<Deficits>),
    Stride(Box<Passes>),
    Shaper(Bucket),
}

impl State {
    ghost use Rattle.std.specs.Prelude.{◌≡◌, ◌↔◌, true};
    ghost use Rattle.clk_sched.specs.declared.limits.TheConstants.{END_OF_MOMENTS};
    ghost use Rattle.clk_sched.specs.inside.Due.{OpensAt, HoldsHead};
    ghost use Rattle.clk_sched.specs.declared.session.state.State.TheVariants.{Prio};
    ghost use Rattle.clk_sched.specs.inside.Resting.{IsAtRest};

    /// Whether this is the state of a PrioSched, which holds nothing.
    pub fn is_prio(&self) -> bool
        ensures { result ≡ true ↔ self.now ≡ Prio }
    {
        match self {
            State::Prio => true,
            _ => false,
        }
    }

    /// The earliest moment from this one on, in ticks, at which a node with this state lets a packet through.
    pub fn opens_at(&self, moment: u64) -> u64
        requires { moment < END_OF_MOMENTS }
        ensures opens { OpensAt self.now moment result }
        ensures soon { result ≤ moment + 1 }
    {
        match self {
            State::Shaper(bucket) => bucket.opens_at(moment),
            _ => moment,
        }
    }

    /// Whether it is known that a turn in which a node with this state gets nothing leaves the state as it is.
    pub fn is_at_rest(&self) -> bool
        ensures { result ≡ true → IsAtRest self.now }
    {
        match self {
            State::Drr(deficits) => deficits.is_at_rest(),
            _ => true,
        }
    }

    /// Whether a node with this state holds a head.
    pub fn holds_head(&self) -> bool
        ensures { HoldsHead self.now result }
    {
        match self {
            State::Drr(deficits) => deficits.holds_head(),
            _ => false,
        }
    }
}
