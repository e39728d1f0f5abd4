//! The plan and the trace that warnings are found in.

ghost use Rattle.std.specs.Prelude.{◌≡◌, map};
ghost use Rattle.clk_tree.specs.Elements.{planned};
ghost use Rattle.clk_lint.specs.Load.{trace_of};
ghost use Rattle.clk_lint.specs.inside.Sent.{sent_of};

use crate::load::{USUAL_LENGTH, longest_at, sent_of};
use clk_packet::{Fault, Traces};
use clk_tree::{Element, Plan};
use std::alloc::Global;

/// The elements of a plan, and a trace if there is one.
#[derive(Drop)]
pub struct Judged<'p, 't> {
    pub elements: &'p [Element],
    pub trace: Option<&'t Traces>,
    /// The length of the longest packet that each element itself sends, in bytes, by its place. It is computed once, since an element may
    /// be below several schedulers.
    sent: Vec<u16>,
    ghost is_sent: { sent.items ≡ sent_of (map planned elements.now) (trace_of trace) },
}

impl<'p, 't> Judged<'p, 't> {
    ghost use Rattle.std.specs.Prelude.{◌≡◌, slice_get, None, Some, IfOk, IsOkUnless, MatchOption};
    ghost use Rattle.clk_packet.specs.declared.fault.Fault.TheVariants.{Memory};
    ghost use Rattle.clk_tree.specs.Elements.{planned};
    ghost use Rattle.clk_lint.specs.Load.{longest_below, trace_of};
    ghost use Rattle.clk_lint.specs.inside.Kept.{plan_in, trace_in};

    /// A plan, and a trace if there is one. Fault 1 if an allocation fails.
    pub fn of(
        alloc: Global,
        plan: &'p Plan,
        trace: Option<&'t Traces>,
    ) -> Result<Judged<'p, 't>, Fault>
        ensures plan { IfOk result (λ judged. plan_in judged ≡ plan.now) }
        ensures trace { IfOk result (λ judged. trace_in judged ≡ trace_of trace.entry) }
        ensures fault { IsOkUnless result Memory }
    {
        let elements = plan.elements();
        let sent = sent_of(alloc, elements, trace)?;
        Ok(Judged {
            elements,
            trace,
            sent,
        })
    }

    /// The element at a place, if there is one.
    pub fn element(&self, place: usize) -> Option<&Element>
        ensures { MatchOption result (slice_get (plan_in self.now) place ≡ None) (λ e. slice_get (plan_in self.now) place ≡ Some (planned e.now)) }
    {
        self.elements.get(place)
    }

    /// The length of the longest packet that reaches an input, in bytes, if the element at this place is connected to the input.
    pub fn longest_below(&self, place: usize) -> u16
        ensures { result ≡ longest_below (plan_in self.now) (trace_in self.now) place }
    {
        match self.trace {
            None => USUAL_LENGTH,
            Some(_) => longest_at(self.elements, &self.sent, self.elements.len(), place),
        }
    }
}

/// An element that warnings are about.
#[derive(Clone, Copy)]
pub struct Spot {
    /// Its place, from 0 in order of declaration.
    pub place: usize,
    /// Whether a PrioSched prefers it, or an element that it is below, to another input.
    pub preferred: bool,
}
