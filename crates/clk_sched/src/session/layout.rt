//! How a tree is laid out in tables, by node number, before its first pull.

ghost use Rattle.std.specs.Prelude.{◌≡◌, ℕ, ◌+◌, ◌≤◌, ◌<◌, true, [], ◌++◌, length, MatchOption, IfOk, IfErr};
ghost use Rattle.clk_packet.specs.declared.limits.TheConstants.{MAX_ELEMENTS};
ghost use Rattle.clk_packet.specs.Scheduler.{HasArguments};
ghost use Rattle.clk_sched.specs.Tree.{root};
ghost use Rattle.clk_sched.specs.Built.{row};
ghost use Rattle.clk_sched.specs.LaidOut.{IsRefused};
ghost use Rattle.clk_sched.specs.Session.{elements};
ghost use Rattle.clk_packet.specs.Scheduler.{scheduler_view};
ghost use Rattle.clk_sched.specs.inside.Logged.{kind_made};
ghost use Rattle.clk_sched.specs.inside.Places.{edges_of, inputs_of};
ghost use Rattle.clk_sched.specs.inside.Holds.OfClass.{Holds};
ghost use Rattle.clk_sched.specs.inside.LaidOut.{elements_of, input_of, below_row, below_tree, entries, entries_of, kinds, kinds_of, Adds, AddsNode, FitsInputs};
ghost use Rattle.clk_sched.specs.inside.Session.{IsLaidOut};

use crate::session::drr::Deficits;
use crate::session::inputs::{Below, Input, Inputs};
use crate::session::keeps::Keeps;
use crate::session::log::Log;
use crate::session::nodes::Nodes;
use crate::session::prio::DEVICE;
use crate::session::round_robin::Beginning;
use crate::session::shaper::Bucket;
use crate::session::state::State;
use crate::session::stride::Passes;
use crate::tree::{Node, Tree};
use clk_packet::{Fault, MAX_ELEMENTS, Scheduler};
use std::alloc::{AllocError, Global};
use std::slice;

/// What is below no input.
const NOTHING: Below = Below {
    edges: 0,
    nodes: 0,
    first: u16::MAX,
    last: 0,
};

/// The tables of nodes, by number, as they are filled.
#[derive(Drop)]
struct Tables {
    inputs: Vec<Inputs>,
    states: Vec<State>,
}

/// Lays a tree out in tables, before its first pull, with a log that keeps what `keeps` says.
///
/// # Errors
///
/// Fault 18 if the tree has more than 256 queues and schedulers, the device counted. Otherwise fault 1 if an allocation fails.
pub fn lay_out(alloc: Global, tree: &Tree, keeps: Keeps) -> Result<Nodes, Fault>
    ensures laid_out { IfOk result (λ n. IsLaidOut tree.now n) }
    ensures kind { IfOk result (λ n. n.log.kind ≡ kind_made keeps n.log.kind.room) }
    ensures room { IfOk result (λ n. keeps.latest ≡ true → edges_of n.inputs.items 0 ≤ n.log.kind.room) }
    ensures fits { IfOk result (λ n. 1 + elements (root tree.now) ≤ MAX_ELEMENTS) }
    ensures refused { IfErr result (λ fault. IsRefused tree.now fault) }
{
    // Reading a field of the tree brings the type invariant into scope: the tree is well formed.
    let _ = &tree.node;
    if room_after(tree, MAX_ELEMENTS - 1).is_none() {
        return Err(Fault::TooLarge);
    }
    let mut tables = Tables {
        inputs: Vec::new(alloc),
        states: Vec::new(alloc),
    };
    // The device is node 0: it stands over this tree as a PrioSched over one input.
    lay_node(alloc, &mut tables, State::Prio, slice::from_ref(tree))?;
    let edges = usize::from(tables.inputs[DEVICE as usize].edges);
    Ok(Nodes {
        inputs: tables.inputs,
        states: tables.states,
        log: Log::new(alloc, keeps, edges)?,
        pull: 0,
        moment: 0,
    })
}

/// What is left of room for so many queues and schedulers after those of a tree, or `None` if these are too many.
#[cycle(room)]
fn room_after(tree: &Tree, room: u16) -> Option<u16>
    ensures { MatchOption result (room < elements_of tree.now) (λ left. left + elements_of tree.now ≡ room) }
{
    let left = room.checked_sub(1)?;
    match &tree.node {
        Node::Leaf(_) => Some(left),
        Node::Inner(_, inputs) => room_after_each(inputs, left),
    }
}

/// What is left of room for so many queues and schedulers after those of these trees, or `None` if these are too many.
#[cycle(room)]
fn room_after_each(trees: &[Tree], room: u16) -> Option<u16>
    ensures { MatchOption result (room < elements (row trees.now)) (λ left. left + elements (row trees.now) ≡ room) }
{
    let [first, rest @ ..] = trees else {
        return Some(room);
    };
    room_after_each(rest, room_after(first, room)?)
}

/// Lays a tree out. Returns what stands for it at an input, and what is there and below.
#[cycle(lay)]
fn lay(alloc: Global, tables: &mut Tables, tree: &Tree) -> Result<(Input, Below), AllocError>
    requires room { length tables.old.inputs.items + elements_of tree.now ≤ MAX_ELEMENTS }
    ensures adds { IfOk result (λ r. Adds tables.old tables.new (entries_of (length tables.old.inputs.items) tree.now) (kinds_of tree.now)) }
    ensures input { IfOk result (λ r. r.0 ≡ input_of (length tables.old.inputs.items) tree.now) }
    ensures below { IfOk result (λ r. r.1 ≡ below_tree tree.now) }
{
    match &tree.node {
        Node::Leaf(q) => {
            let below = Below {
                edges: 1,
                nodes: 0,
                first: *q,
                last: *q,
            };
            Ok((Input::Queue(*q), below))
        }
        Node::Inner(scheduler, inputs) => {
            let number = tables.inputs.len() as u16;
            let state = first_state(alloc, scheduler)?;
            let inner = lay_node(alloc, tables, state, inputs)?;
            let below = Below {
                edges: 1 + inner.edges,
                nodes: 1 + inner.nodes,
                first: inner.first,
                last: inner.last,
            };
            Ok((Input::Node(number), below))
        }
    }
}

/// What a scheduler holds before its first pull.
fn first_state(alloc: Global, scheduler: &Scheduler) -> Result<State, AllocError>
    requires { FitsInputs (scheduler_view scheduler.now) }
    ensures { IfOk result (λ state. (inputs : ℕ) → HasArguments (scheduler_view scheduler.now) inputs → Holds (scheduler_view scheduler.now) inputs [] state) }
{
    match scheduler {
        Scheduler::Prio => Ok(State::Prio),
        Scheduler::RoundRobin => Ok(State::RoundRobin(Beginning { input: 0 })),
        Scheduler::Drr(quanta) => Ok(State::Drr(Box::new(alloc, Deficits::new(alloc, quanta)?)?)),
        Scheduler::Stride(tickets) => Ok(State::Stride(Box::new(
            alloc,
            Passes::new(alloc, tickets)?,
        )?)),
        Scheduler::Shaper(rate, burst) => Ok(State::Shaper(Bucket::new(*rate, *burst))),
    }
}

/// Adds a node with this state over these trees, and lays the trees out after it. Returns what is below the node.
#[cycle(lay)]
fn lay_node(
    alloc: Global,
    tables: &mut Tables,
    state: State,
    trees: &[Tree],
) -> Result<Below, AllocError>
    requires room { length tables.old.inputs.items + elements (row trees.now) < MAX_ELEMENTS }
    ensures adds { IfOk result (λ below. AddsNode tables.old tables.new state (row trees.now)) }
    ensures below { IfOk result (λ below. below ≡ below_row (row trees.now)) }
{
    let number = tables.inputs.len();
    tables.states.push(state)?;
    // This takes the node's number, until what stands at its inputs is known.
    tables.inputs.push(Inputs::new(Vec::new(alloc), NOTHING))?;
    let mut each = Vec::with_capacity(alloc, trees.len())?;
    let below = lay_inputs(alloc, tables, &mut each, trees)?;
    tables.inputs[number] = Inputs::new(each, below);
    Ok(below)
}

/// Lays these trees out, and adds what stands for each to the inputs of a node. Returns what is there and below.
#[cycle(lay)]
fn lay_inputs(
    alloc: Global,
    tables: &mut Tables,
    each: &mut Vec<Input>,
    trees: &[Tree],
) -> Result<Below, AllocError>
    requires room { length tables.old.inputs.items + elements (row trees.now) ≤ MAX_ELEMENTS }
    ensures adds { IfOk result (λ below. Adds tables.old tables.new (entries (length tables.old.inputs.items) (row trees.now)) (kinds (row trees.now))) }
    ensures each { IfOk result (λ below. each.new.items ≡ each.old.items ++ inputs_of (length tables.old.inputs.items) (row trees.now)) }
    ensures below { IfOk result (λ below. below ≡ below_row (row trees.now)) }
{
    let [first, rest @ ..] = trees else {
        return Ok(NOTHING);
    };
    let (input, here) = lay(alloc, tables, first)?;
    each.push(input)?;
    let others = lay_inputs(alloc, tables, each, rest)?;
    Ok(Below {
        edges: here.edges + others.edges,
        nodes: here.nodes + others.nodes,
        first: here.first.min(others.first),
        last: here.last.max(others.last),
    })
}
