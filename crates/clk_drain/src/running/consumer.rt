//! A consumer: what pulls a device while producers run.

use crate::running::open_lines::{OpenLines, open_lines_for};
use crate::running::opening::{Ends, LeafQueue};
use crate::running::terms::RunTerms;
use clk_gate::Gate;
use clk_packet::Fault;
use clk_sched::Session;
use std::alloc::Global;
use std::marker::Model;
use std::sync::Wait;
use std::thread;

/// How often a consumer that found nothing yields to other threads before it looks again.
const YIELDS: u32 = 64;

/// A device's session, with the open lines over which it is pulled.
#[derive(Drop)]
pub struct Consumer<'a, W: Wait> {
    pub device: u16,
    pub session: Session,
    pub open_lines: OpenLines<'a, W>,
}

impl<'a, W: Wait> Model for Consumer<'a, W> {
    ghost use Rattle.clk_drain.specs.inside.Threads.{Feed};
    ghost use Rattle.std.specs.Prelude.{◌≡◌};
    ghost use Rattle.std.specs.Coded.{codes};
    ghost use Rattle.clk_sched.specs.Session.{progress_of};
    ghost use Rattle.clk_sched.specs.Stored.{tree_code};

    ghost Value = { Feed };

    ghost coded = { Prim.hlevel (codes, tree_code) };

    ghost view = { λ c. record { session = progress_of c.session; keeps = c.session.keeps; lines = c.open_lines } };

    ghost invariant = { λ c. c.session.gone ≡ 0 };
}

impl<'a, W: Wait> Consumer<'a, W> {
    ghost use Rattle.std.specs.Prelude.{◌≡◌, ◌<◌, ◌≤◌, ◌*◌, IfOk, OnOk, IsOkUnless};
    ghost use Rattle.clk_packet.specs.declared.fault.Fault.TheVariants.{Memory};
    ghost use Rattle.clk_packet.specs.Lists.{AreRising};
    ghost use Rattle.clk_drain.specs.Line.{AreLinesOf, leaves_of};
    ghost use Rattle.clk_drain.specs.inside.Handed.{lines_from, AreTapsOf, feed_from, pulled_of};
    ghost use Rattle.clk_drain.specs.inside.Threads.{IsUnpulled, IsPulled, IsPulledAt};

    /// A consumer of a device over its queues. Fault 1 if an allocation fails.
    pub fn new(
        alloc: Global,
        wait: &'a W,
        queues: &'a [LeafQueue],
        ends: Ends,
    ) -> Result<Consumer<'a, W>, Fault>
        requires rise { AreRising (leaves_of (lines_from queues.now ends.taps)) }
        requires taps { AreTapsOf queues.now ends.taps }
        ensures consumer { IfOk result (λ consumer. consumer ≡ feed_from queues.now ends) }
        ensures fault { IsOkUnless result Fault.Memory }
    {
        let Ends {
            device,
            session,
            taps,
        } = ends;
        let open_lines = open_lines_for(alloc, queues, taps)?;
        Ok(Consumer {
            device,
            session,
            open_lines: OpenLines::new(wait, open_lines),
        })
    }

    /// The session with its taps. Fault 1 if an allocation fails.
    pub fn into_ends(self, alloc: Global) -> Result<Ends, Fault>
        ensures ends { IfOk result (λ ends. ends ≡ pulled_of self.entry) }
        ensures fault { IsOkUnless result Fault.Memory }
    {
        let Consumer {
            device,
            session,
            open_lines,
        } = self;
        Ok(Ends {
            device,
            session,
            taps: open_lines.into_taps(alloc)?,
        })
    }

    /// Pulls the device once each step, until it was pulled as often as it may be or all producers are done.
    ///
    /// # Errors
    ///
    /// Fault 1 if an allocation of the session fails.
    pub fn pull_all<G: Gate>(self, terms: &RunTerms<W, G>) -> Result<Consumer<'a, W>, Fault>
        requires unpulled { IsUnpulled self }
        ensures pulled { IfOk result (IsPulled terms.now self.entry) }
        ensures fault { IsOkUnless result Fault.Memory }
    {
        let mut consumer = self;
        let mut made = 0;
        while made < terms.limit() {
            if terms.is_over() {
                return Ok(consumer);
            }
            made += 1;
            consumer.pull(terms, made)?;
        }
        Ok(consumer)
    }

    // Makes the pull with this number, counted from 1. If it gave none, yields to other threads.
    fn pull<G: Gate>(&mut self, terms: &RunTerms<W, G>, number: u32) -> Result<(), Fault>
        requires number { number ≤ terms.now.limit }
        requires own { AreLinesOf self.old.session self.old.lines }
        ensures pulled { OnOk result (IsPulledAt (number * terms.now.step) self.old self.new) }
        ensures fault { IsOkUnless result Fault.Memory }
    {
        let moment = terms.moment(number);
        let got = self.open_lines.pull(&mut self.session, moment)?;
        terms.gate.pulled(self.device, u64::from(number));
        if got.is_none() {
            yield_to_others();
        }
        Ok(())
    }
}

// Lets other threads go first.
fn yield_to_others() {
    for _ in 0..YIELDS {
        thread::yield_now();
    }
}
