//! The shared queues of a tree while their seats are handed out, from which a session pulls.

ghost use Rattle.std.specs.Prelude.{◌≡◌, IfOk, IsOkUnless};
ghost use Rattle.clk_packet.specs.declared.fault.Fault.TheVariants.{Memory};
ghost use Rattle.clk_drain.specs.inside.Handed.{lines_from, AreTapsOf};

use crate::at_leaf::{AtLeaf, place_of};
use crate::running::opening::LeafQueue;
use clk_packet::{Fault, Packet};
use clk_ruled::{RuledQueue, Tap};
use clk_sched::{Ask, Session};
use std::alloc::Global;
use std::marker::Model;
use std::sync::Wait;

/// The tap of a shared queue, at the leaf where the queue stands. Contracts see a line that has no seats yet.
#[derive(Drop)]
pub struct OpenLine<'a> {
    pub leaf: u16,
    pub queue: &'a RuledQueue,
    pub tap: Tap,
}

impl<'a> Model for OpenLine<'a> {
    ghost use Rattle.std.specs.Prelude.{[]};
    ghost use Rattle.clk_ruled.specs.Queue.{IsTapOf};
    ghost use Rattle.clk_drain.specs.Line.{LineLists};

    ghost Value = { LineLists };

    ghost view = { λ i. record { leaf = i.leaf; tap = i.tap; closed = [] } };

    ghost invariant = { λ i. IsTapOf i.queue.now i.tap };
}

impl<'a> AtLeaf for OpenLine<'a> {
    ghost leaf = { λ l. l.leaf };

    fn leaf(&self) -> u16 {
        self.leaf
    }
}

impl<'a> OpenLine<'a> {
    ghost use Rattle.std.specs.Prelude.{◌≡◌};
    ghost use Rattle.clk_drain.specs.Line.{pulling, packets_of};

    /// Pulls the packet at the front of the queue, or returns `None` if it finds the queue empty. Doesn't allocate.
    pub fn pull(&mut self, wait: &impl Wait) -> Option<Packet>
        ensures { self.new ≡ pulling self.old (packets_of result) }
    {
        let queue = self.queue;
        self.tap.pull(queue, wait)
    }

    /// The tap.
    pub fn into_tap(self) -> Tap
        ensures { result ≡ self.entry.tap }
    {
        self.tap
    }
}

/// Open lines of rising leaves, over which a session is pulled.
#[derive(Drop)]
pub struct OpenLines<'a, W: Wait> {
    wait: &'a W,
    each: Vec<OpenLine<'a>>,
}

impl<'a, W: Wait> Model for OpenLines<'a, W> {
    ghost use Rattle.std.specs.Prelude.{List};
    ghost use Rattle.clk_packet.specs.Lists.{AreRising};
    ghost use Rattle.clk_drain.specs.Line.{LineLists, leaves_of};

    ghost Value = { List LineLists };

    ghost view = { λ i. i.each.items };

    ghost invariant = { λ i. AreRising (leaves_of i.each.items) };
}

impl<'a, W: Wait> OpenLines<'a, W> {
    ghost use Rattle.std.specs.Prelude.{◌≡◌, ◌<◌, map, IfOk, OnOk, IsOkUnless};
    ghost use Rattle.clk_packet.specs.declared.fault.Fault.TheVariants.{Memory};
    ghost use Rattle.clk_sched.specs.declared.limits.TheConstants.{END_OF_MOMENTS};
    ghost use Rattle.clk_sched.specs.Results.{leaf_packets};
    ghost use Rattle.clk_sched.specs.Session.{IsPulledOnce, newly, progress_of};
    ghost use Rattle.clk_packet.specs.Lists.{AreRising};
    ghost use Rattle.clk_drain.specs.Line.{LineLists, AreLinesOf, leaves_of, pulling_all};

    /// Open lines of rising leaves. `wait` is how their queues wait.
    pub fn new(wait: &'a W, each: Vec<OpenLine<'a>>) -> OpenLines<'a, W>
        requires rise { AreRising (leaves_of each.items) }
        ensures { result ≡ each.entry.items }
    {
        OpenLines { wait, each }
    }

    /// Pulls a device's session over its open lines once, as `Session::pull` does.
    ///
    /// # Errors
    ///
    /// Fault 1 if an allocation fails, or if 2^63 pulls were made before. Then nothing has changed, and nothing was asked.
    pub fn pull(&mut self, session: &mut Session, moment: u64) -> Result<Option<Packet>, Fault>
        requires moment { moment < END_OF_MOMENTS }
        requires lines { AreLinesOf (progress_of session.old) self.old }
        ensures pulled { IfOk result (IsPulledOnce (progress_of session.old) (progress_of session.new) moment) }
        ensures keeps { session.new.keeps ≡ session.old.keeps }
        ensures gone { session.new.gone ≡ session.old.gone }
        ensures lines { AreLinesOf (progress_of session.new) self.new }
        ensures taken { OnOk result (self.new ≡ pulling_all (λ q. leaf_packets session.old.tree q (newly (progress_of session.old) (progress_of session.new))) self.old) }
        ensures fault { IsOkUnless result Fault.Memory }
    {
        session.pull(self, moment)
    }

    /// The taps, in order.
    ///
    /// # Errors
    ///
    /// Fault 1 if an allocation fails.
    pub fn into_taps(self, alloc: Global) -> Result<Vec<Tap>, Fault>
        ensures taps { IfOk result (λ taps. taps.items ≡ map (λ (l : LineLists). l.tap) self.entry) }
        ensures fault { IsOkUnless result Fault.Memory }
    {
        let mut taps = Vec::with_capacity(alloc, self.each.len())?;
        for open_line in self.each {
            taps.push(open_line.into_tap())?;
        }
        Ok(taps)
    }
}

impl<'a, W: Wait> Ask for OpenLines<'a, W> {
    ghost use Rattle.clk_drain.specs.Line.{PullsAt, has_line};

    ghost has = { has_line };

    // While producers offer, no one thread knows what a shared queue holds.
    ghost holds = { λ s leaf. 0 };

    ghost gives = { PullsAt };

    fn ask(&mut self, leaf: u16) -> Option<Packet> {
        match place_of(self.each.as_slice(), leaf) {
            Some(place) => {
                let wait = self.wait;
                let open_line = &mut self.each[place];
                open_line.pull(wait)
            }
            None => None,
        }
    }
}

/// The open lines of queues, in order. Fault 1 if an allocation fails.
pub fn open_lines_for<'a>(
    alloc: Global,
    queues: &'a [LeafQueue],
    taps: Vec<Tap>,
) -> Result<Vec<OpenLine<'a>>, Fault>
    requires taps { AreTapsOf queues.now taps.items }
    ensures open_lines { IfOk result (λ open_lines. open_lines.items ≡ lines_from queues.now taps.items) }
    ensures fault { IsOkUnless result Fault.Memory }
{
    let mut open_lines = Vec::with_capacity(alloc, queues.len())?;
    let mut place = 0;
    for tap in taps {
        let LeafQueue { leaf, queue, .. } = &queues[place];
        open_lines.push(OpenLine {
            leaf: *leaf,
            queue,
            tap,
        })?;
        place += 1;
    }
    Ok(open_lines)
}
