//! The lines of a session, from which it pulls.

ghost use Rattle.std.specs.Prelude.{◌≡◌, false, None};
ghost use Rattle.std.specs.List.{AllByRecursion};
ghost use Rattle.clk_sched.specs.Closing.{TakesOne};
ghost use Rattle.clk_packet.specs.Lists.{AreRising};
ghost use Rattle.clk_drain.specs.Line.{PullsAt, has_line, leaves_of};
ghost use Rattle.clk_drain.specs.inside.Parts.{IsGathered, held_at};

use crate::at_leaf::place_of;
use crate::line::Line;
use clk_packet::{Fault, Packet};
use clk_sched::{Ask, Session};
use std::marker::Model;
use std::sync::Wait;

/// Lines of rising leaves, over which sessions are pulled.
#[derive(Drop)]
pub struct Lines<'a, W: Wait> {
    wait: &'a W,
    each: Vec<Line>,
}

impl<'a, W: Wait> Model for Lines<'a, W> {
    ghost use Rattle.std.specs.Prelude.{List};
    ghost use Rattle.clk_packet.specs.Lists.{AreRising};
    ghost use Rattle.clk_drain.specs.Line.{LineLists, leaves_of};

    ghost Value = { List LineLists };

    ghost view = { λ l. l.each.items };

    ghost invariant = { λ l. AreRising (leaves_of l.each.items) };
}

impl<'a, W: Wait> Lines<'a, W> {
    ghost use Rattle.std.specs.Prelude.{◌≡◌, ◌<◌, IfOk, OnErr, IsOkUnless};
    ghost use Rattle.clk_sched.specs.declared.limits.TheConstants.{END_OF_MOMENTS};
    ghost use Rattle.clk_sched.specs.Session.{IsPulledOnce, progress_of};
    ghost use Rattle.clk_packet.specs.Lists.{AreRising};
    ghost use Rattle.clk_drain.specs.Line.{AreStill, AreLinesOf, leaves_of};

    /// Lines of rising leaves. `wait` is how their queues wait.
    pub fn new(wait: &'a W, each: Vec<Line>) -> Lines<'a, W>
        requires rise { AreRising (leaves_of each.items) }
        ensures { result ≡ each.items }
    {
        Lines { wait, each }
    }

    /// The lines. Doesn't allocate.
    pub fn into_vec(self) -> Vec<Line>
        ensures { result.items ≡ self.entry }
    {
        self.each
    }

    /// Pulls a session over its lines once, as `Session::pull` does.
    ///
    /// # Errors
    ///
    /// Fault 1 if an allocation fails, or if 2^63 pulls were made before. Then nothing has changed, and nothing was asked.
    pub fn pull(&mut self, session: &mut Session, moment: u64) -> Result<Option<Packet>, Fault>
        requires moment { moment < END_OF_MOMENTS }
        requires lines { AreLinesOf (progress_of session.old) self.old }
        ensures pulled { IfOk result (IsPulledOnce (progress_of session.old) (progress_of session.new) moment) }
        ensures keeps { session.new.keeps ≡ session.old.keeps }
        ensures gone { session.new.gone ≡ session.old.gone }
        ensures lines { AreLinesOf (progress_of session.new) self.new }
        // Their leaves, setups and seats stay, so they can be drained as before.
        ensures still { AreStill self.old self.new }
        ensures fault { IsOkUnless result Fault.Memory }
        ensures unchanged { OnErr result (session.new ≡ session.old) }
        ensures unasked { OnErr result (self.new ≡ self.old) }
    {
        session.pull(self, moment)
    }
}

impl<'a, W: Wait> Ask for Lines<'a, W> {
    ghost use Rattle.clk_drain.specs.Line.{PullsAt, has_line};

    ghost has = { has_line };

    // While producers offer, no one thread knows what a shared queue holds.
    ghost holds = { λ s leaf. 0 };

    ghost gives = { PullsAt };

    fn ask(&mut self, leaf: u16) -> Option<Packet> {
        pull_at(&mut self.each, self.wait, leaf)
    }
}

/// Lines of rising leaves, whose taps gathered all seats. So it is known how many packets each queue holds, and a queue that gives none has
/// given all: they lose nothing.
#[derive(Drop)]
pub(crate) struct GatheredLines<'a, W: Wait> {
    wait: &'a W,
    each: Vec<Line>,
}

impl<'a, W: Wait> Model for GatheredLines<'a, W> {
    ghost use Rattle.std.specs.Prelude.{List};
    ghost use Rattle.std.specs.List.{AllByRecursion};
    ghost use Rattle.clk_packet.specs.Lists.{AreRising};
    ghost use Rattle.clk_drain.specs.Line.{LineLists, leaves_of};
    ghost use Rattle.clk_drain.specs.inside.Parts.{IsGathered};

    ghost Value = { List LineLists };

    ghost view = { λ l. l.each.items };

    ghost invariant = { λ l. AreRising (leaves_of l.each.items) × AllByRecursion IsGathered l.each.items };
}

impl<'a, W: Wait> GatheredLines<'a, W> {
    ghost use Rattle.std.specs.Prelude.{◌≡◌};
    ghost use Rattle.std.specs.List.{AllByRecursion};
    ghost use Rattle.clk_packet.specs.Lists.{AreRising};
    ghost use Rattle.clk_drain.specs.Line.{leaves_of};
    ghost use Rattle.clk_drain.specs.inside.Parts.{IsGathered};

    // Lines of rising leaves, whose seats are all gathered. `wait` is how their queues wait.
    pub(crate) fn new(wait: &'a W, each: Vec<Line>) -> GatheredLines<'a, W>
        requires rise { AreRising (leaves_of each.items) }
        requires gathered { AllByRecursion IsGathered each.items }
        ensures { result ≡ each.items }
    {
        GatheredLines { wait, each }
    }

    // The lines. Doesn't allocate.
    pub(crate) fn into_vec(self) -> Vec<Line>
        ensures { result.items ≡ self.entry }
    {
        self.each
    }
}

impl<'a, W: Wait> Ask for GatheredLines<'a, W> {
    ghost use Rattle.clk_sched.specs.Closing.{TakesOne};
    ghost use Rattle.clk_drain.specs.Line.{PullsAt, has_line};
    ghost use Rattle.clk_drain.specs.inside.Parts.{held_at};

    ghost has = { has_line };

    ghost holds = { held_at };

    ghost gives = { λ old leaf got new. PullsAt old leaf got new × TakesOne (held_at old) (held_at new) leaf got };

    fn ask(&mut self, leaf: u16) -> Option<Packet> {
        pull_at(&mut self.each, self.wait, leaf)
    }
}

// Pulls the line of a leaf, if there is one.
fn pull_at<W: Wait>(lines: &mut Vec<Line>, wait: &W, leaf: u16) -> Option<Packet>
    requires rise { AreRising (leaves_of lines.old.items) }
    ensures rise { AreRising (leaves_of lines.new.items) }
    ensures pulled { PullsAt lines.old.items leaf result lines.new.items }
    ensures missing { has_line lines.old.items leaf ≡ false → result ≡ None }
    ensures gathered { AllByRecursion IsGathered lines.old.items → AllByRecursion IsGathered lines.new.items }
    ensures takes { AllByRecursion IsGathered lines.old.items → TakesOne (held_at lines.old.items) (held_at lines.new.items) leaf result }
{
    match place_of(lines.as_slice(), leaf) {
        Some(place) => {
            let line = &mut lines[place];
            line.pull(wait)
        }
        None => None,
    }
}
