//! The plan that a text denotes.

mod build;
mod devices;
mod element;
mod parts;
mod text;
mod tree;
mod wiring;

ghost use Rattle.std.specs.Prelude.{◌≡◌, ◌⊎◌, ◌∷◌, [], map, length, IfOk, IfErr, IsOkUnless};
ghost use Rattle.std.specs.List.{AllByRecursion};
ghost use Rattle.clk_packet.specs.declared.fault.Fault.TheVariants.{Memory};
ghost use Rattle.clk_syntax.specs.Reading.{HasFault};
ghost use Rattle.clk_tree.specs.Plan.{Denotes};
ghost use Rattle.clk_tree.specs.PlanTree.{device_sources};
ghost use Rattle.clk_tree.specs.Elements.{planned};

use crate::plan::build::elements_of;
use crate::plan::parts::{names_of, queues_of, senders_of};
use crate::plan::text::canonical_text;
use crate::plan::tree::tree_at;
use clk_packet::{Fault, MAX_LEVELS};
use clk_sched::Tree;
use clk_syntax::{Class, Graph, check_graph, named_text};
pub use element::Element;
pub use parts::{QueueSpec, SenderSpec};
use std::alloc::Global;
use std::marker::Model;

/// Trees of schedulers over queues with their senders, one for each device, as a text in Click's language declares and connects them.
#[derive(Drop)]
pub struct Plan {
    elements: Vec<Element>,
    /// The element that is connected to each device, by its place among all.
    tops: Vec<u16>,
    queues: Vec<QueueSpec>,
    senders: Vec<SenderSpec>,
}

impl Model for Plan {
    ghost use Rattle.std.specs.Prelude.{List, map};
    ghost use Rattle.clk_tree.specs.Plan.{Planned};
    ghost use Rattle.clk_tree.specs.PlanParts.{queued, IsKept};
    ghost use Rattle.clk_tree.specs.Elements.{planned};

    ghost Value = { List Planned };

    ghost view = { λ plan. map planned plan.elements.items };

    ghost invariant = { λ plan. IsKept (map planned plan.elements.items) plan.tops.items (map queued plan.queues.items) plan.senders.items };
}

impl Plan {
    ghost use Rattle.std.specs.Prelude.{◌≡◌, ◌≤◌, ◌<◌, ◌+◌, ◌⊎◌, ℕ, List, true, map, length, slice_get, IfOk, IfErr, IsOkUnless};
    ghost use Rattle.std.specs.List.{AllByRecursion};
    ghost use Rattle.clk_packet.specs.declared.fault.Fault.TheVariants.{Memory};
    ghost use Rattle.clk_packet.specs.declared.limits.TheConstants.{MAX_ELEMENTS, MAX_LEVELS};
    ghost use Rattle.clk_packet.specs.Lists.{stands_in, AreRising};
    ghost use Rattle.clk_sched.specs.Tree.{Tree, root, leaves, leaves_distinct};
    ghost use Rattle.clk_sched.specs.Session.{elements};
    ghost use Rattle.clk_syntax.specs.declared.limits.TheConstants.{MAX_TREE_BYTES};
    ghost use Rattle.clk_syntax.specs.Reading.{HasFault};
    ghost use Rattle.clk_tree.specs.Plan.{Denotes};
    ghost use Rattle.clk_tree.specs.Elements.{planned};
    ghost use Rattle.clk_tree.specs.PlanTree.{device_count, IsTreeOf};
    ghost use Rattle.clk_tree.specs.PlanParts.{queued, leads_to, number_of, senders_of, queues_of, sender_names, HasCapacity, HasNumber, SendsWithin};
    ghost use Rattle.clk_tree.specs.Shares.{AreTreesOf, AreSharedOut};
    ghost use Rattle.clk_tree.specs.Drrs.{AreDrrsAbove};
    ghost use Rattle.clk_tree.specs.Canonical.{canonical_text};

    /// Reads a tree text, and returns the plan that it denotes. The text has to keep to the grammar of Click's language. It has to declare
    /// and connect trees of schedulers over queues with senders, each of which ends at a device of its own.
    ///
    /// # Errors
    ///
    /// Fault 1 if an allocation fails. Otherwise fault 18 for a text of more than 1,048,576 bytes, and fault 2 for one that breaks the
    /// grammar. Then come 5, 3, 4, 6, 7, 8, 9, 10, 11, 13 and 18: the first in this order that the text has, at its first place. Fault 12
    /// is never returned, since a text may have several devices.
    pub fn read(alloc: Global, text: &[u8]) -> Result<Plan, Fault>
        ensures denotes { IfOk result (Denotes text.now) }
        ensures fault { IfErr result (λ fault. (fault ≡ Memory) ⊎ HasFault text.now fault) }
    {
        let elements = read_elements(alloc, text)?;
        let tops = tops_of(alloc, &elements)?;
        let senders = senders_of(alloc, &elements)?;
        let queues = queues_of(alloc, &elements, &senders)?;
        Ok(Plan {
            elements,
            tops,
            queues,
            senders,
        })
    }

    /// The canonical text of the plan. It has a line for each element in order of declaration, with all its arguments, and then a line for
    /// each connection. Connections are in order of the element that they lead to, its input, and the element that they come from.
    ///
    /// # Errors
    ///
    /// Fault 1 if an allocation fails.
    pub fn write(&self, alloc: Global) -> Result<Vec<u8>, Fault>
        ensures text { IfOk result (λ text. text.items ≡ canonical_text self.now) }
        // If it is no longer than a text may be, it denotes this plan.
        ensures again { IfOk result (λ text. length text.items ≤ MAX_TREE_BYTES → Denotes text.items self.now) }
        ensures fault { IsOkUnless result Memory }
    {
        canonical_text(alloc, &self.elements)
    }

    /// The elements of the plan, in order of declaration. Places are counted from 0.
    pub fn elements(&self) -> &[Element]
        ensures { map planned result.now ≡ self.now }
    {
        &self.elements
    }

    /// How many devices there are. Each is the root of a tree of its own; they are numbered from 0 in order of declaration.
    pub fn devices(&self) -> u16
        ensures count { result ≡ device_count self.now }
        ensures some { 1 ≤ result }
        ensures within { result ≤ MAX_ELEMENTS }
    {
        self.tops.len() as u16
    }

    /// The tree of a device of the plan, by its number. A leaf is a queue by its number: queues are numbered from 0 in order of
    /// declaration.
    ///
    /// # Errors
    ///
    /// Fault 1 if an allocation fails.
    pub fn tree(&self, alloc: Global, device: u16) -> Result<Tree, Fault>
        requires device { device < device_count self.now }
        ensures tree { IfOk result (IsTreeOf self.now device) }
        ensures distinct { IfOk result (λ tree. leaves_distinct tree ≡ true) }
        // It is small enough for a session.
        ensures fits { IfOk result (λ tree. 1 + elements (root tree) ≤ MAX_ELEMENTS) }
        // Its leaves are the queues whose paths end at this device.
        ensures leaves { IfOk result (λ tree. (q : ℕ) → stands_in q (leaves (root tree)) ≡ leads_to device (slice_get (queues_of self.now) q)) }
        ensures fault { IsOkUnless result Memory }
    {
        tree_at(
            alloc,
            &self.elements,
            self.tops[device as usize],
            MAX_LEVELS,
        )
    }

    /// The queues of the plan, by their numbers.
    pub fn queues(&self) -> &[QueueSpec]
        ensures queues { map queued result.now ≡ queues_of self.now }
        ensures few { length (queues_of self.now) ≤ MAX_ELEMENTS }
        ensures capacities { AllByRecursion HasCapacity (queues_of self.now) }
        ensures senders { AllByRecursion (λ q. AreRising q.senders) (queues_of self.now) }
        ensures devices { AllByRecursion (λ q. q.device < device_count self.now) (queues_of self.now) }
    {
        &self.queues
    }

    /// The number of DRRScheds above each queue in the tree of its device, at the queue's number. Makes the tree of each device in turn.
    ///
    /// # Errors
    ///
    /// Fault 1 if an allocation fails.
    pub fn drrs_above(&self, alloc: Global) -> Result<Vec<u32>, Fault>
        ensures length { IfOk result (λ counts. length counts.items ≡ length (queues_of self.now)) }
        ensures counts { IfOk result (λ counts. (trees : List Tree) → AreTreesOf self.now trees → AreDrrsAbove (queues_of self.now) trees counts.items) }
        ensures limit { IfOk result (λ counts. AllByRecursion (λ n. n ≤ MAX_LEVELS) counts.items) }
        ensures fault { IsOkUnless result Memory }
    {
        let mut counts = vec![in alloc; 0; self.queues().len()]?;
        for device in 0..self.devices() {
            let tree = self.tree(alloc, device)?;
            tree.count_drrs(&mut counts);
        }
        Ok(counts)
    }

    /// A law: the leaves of the trees together are the numbers of the queues, each once, and each queue is a leaf of the tree of its
    /// device.
    pub fn trees_share_queues(&self)
        ensures { (trees : List Tree) → AreTreesOf self.now trees → AreSharedOut (queues_of self.now) trees }
    {
        let _elements = &self.elements;
    }

    /// The senders of the plan, by rising number. Each number is at most 65,535, the greatest that a text may give a sender.
    pub fn senders(&self) -> &[SenderSpec]
        ensures senders { result.now ≡ senders_of self.now }
        ensures rising { AreRising (map number_of result.now) }
        ensures numbers { AllByRecursion HasNumber result.now }
        ensures wired { AllByRecursion (SendsWithin (length (queues_of self.now))) result.now }
    {
        &self.senders
    }

    /// The names of the senders of the plan, in the order of `senders`.
    ///
    /// # Errors
    ///
    /// Fault 1 if an allocation fails.
    pub fn sender_names(&self, alloc: Global) -> Result<Vec<Vec<u8>>, Fault>
        ensures names { IfOk result (λ names. map (λ n. n.items) names.items ≡ sender_names self.now) }
        ensures fault { IsOkUnless result Memory }
    {
        names_of(alloc, &self.elements, self.senders())
    }
}

/// The elements of the plan that a text denotes. Fails with the faults of `Plan::read`.
fn read_elements(alloc: Global, text: &[u8]) -> Result<Vec<Element>, Fault>
    ensures denotes { IfOk result (λ elements. Denotes text.now (map planned elements.items)) }
    ensures fault { IfErr result (λ fault. (fault ≡ Memory) ⊎ HasFault text.now fault) }
{
    let (statements, named) = named_text(alloc, text)?;
    let graph = Graph::new(alloc, &named.nodes, &named.links)?;
    match check_graph(alloc, &graph) {
        Ok(()) => {}
        Err(fault) => return Err(fault),
    }
    elements_of(
        alloc,
        text,
        &statements.declarations,
        &named.classes,
        &graph,
    )
}

/// The element that is connected to each device, by its place among all. Fault 1 if an allocation fails.
fn tops_of(alloc: Global, elements: &[Element]) -> Result<Vec<u16>, Fault>
    requires one { AllByRecursion (λ sources. length sources ≡ 1) (device_sources (map planned elements.now)) }
    ensures made { IfOk result (λ tops. device_sources (map planned elements.now) ≡ map (λ top. top ∷ []) tops.items) }
    ensures fault { IsOkUnless result Memory }
{
    let mut tops = Vec::new(alloc);
    for element in elements {
        if let Class::ToDevice(_) = element.class {
            tops.push(element.sources[0])?;
        }
    }
    Ok(tops)
}
