//! Opening a live router.

ghost use Rattle.std.specs.Prelude.{◌≡◌, ◌^◌, ◌≤◌, ℕ, List, [], length, IfOk, OnOk, IsOkUnless};
ghost use Rattle.std.specs.List.{AllByRecursion, AllZip};
ghost use Rattle.clk_packet.specs.Lists.{AreRising};
ghost use Rattle.clk_tree.specs.PlanParts.{queues_of};
ghost use Rattle.clk_tree.specs.Shares.{AreTreesOf};
ghost use Rattle.clk_tree.specs.Drrs.{AreDrrsAbove};
ghost use Rattle.clk_sched.specs.Tree.{Tree};
ghost use Rattle.clk_inlet.specs.declared.limits.TheConstants.{MAX_ROOM};
ghost use Rattle.clk_inlet.specs.Halves.{pushed, popped, fits, AreHalves};
ghost use Rattle.clk_live.specs.inside.Opened.{AreRoomy};

use crate::live::Live;
use circular_buffer::HeapCircularBuffer;
use clk_inlet::{Inlet, Outlet};
use clk_packet::Fault;
use clk_router::CountingRouter;
use clk_tree::Plan;
use std::alloc::Global;

impl Live {
    ghost use Rattle.clk_live.specs.Opening.{IsLiveOpened};

    /// Opens a router over a plan, with an inlet for each sender. Each inlet has room for `room` packets, from 1 to
    /// [`MAX_ROOM`](clk_inlet::MAX_ROOM). The inlets stand by the places of their senders.
    ///
    /// It allocates all memory: the queues, the rings of the inlets, and 8 bytes for the token of each packet that may be inside. No other
    /// call allocates.
    ///
    /// # Errors
    ///
    /// Fault 1 if an allocation fails.
    pub fn open(alloc: Global, plan: &Plan, room: u32) -> Result<(Live, Vec<Inlet>), Fault>
        requires room { (1 ≤ room) × (room ≤ MAX_ROOM) }
        ensures opened { IfOk result (λ r. IsLiveOpened plan.now room r.0 r.1.items) }
        ensures fault { IsOkUnless result Fault.Memory }
    {
        let router = CountingRouter::open(alloc, plan)?;
        let (inlets, outlets) = halves_of(alloc, router.senders(), room)?;
        // The queue of each sender and the tree of each queue exist, and trees share queues out, by these laws, which do nothing.
        let _senders = plan.senders();
        let _queues = plan.queues();
        plan.trees_share_queues();
        router.queues_go_on();
        router.has_happened();
        let tokens = tokens_of(alloc, plan)?;
        let live = Live {
            router,
            outlets,
            tokens,
            turn: 0,
        };
        Ok((live, inlets))
    }
}

// An inlet and its outlet for each of these senders. Fault 1 if an allocation fails.
fn halves_of(alloc: Global, senders: &[u16], room: u32) -> Result<(Vec<Inlet>, Vec<Outlet>), Fault>
    requires room { (1 ≤ room) × (room ≤ MAX_ROOM) }
    requires rising { AreRising senders.now }
    ensures halves { IfOk result (λ r. AllZip AreHalves r.0.items r.1.items) }
    ensures offered { IfOk result (λ r. AllByRecursion (λ i. (pushed i ≡ []) × (fits i ≡ room)) r.0.items) }
    ensures taken { IfOk result (λ r. AllByRecursion (λ o. popped o ≡ []) r.1.items) }
    ensures many { IfOk result (λ r. length r.1.items ≡ length senders.now) }
    ensures few { OnOk result (length senders.now ≤ 2 ^ 16) }
    ensures fault { IsOkUnless result Fault.Memory }
{
    let mut inlets = Vec::new(alloc);
    let mut outlets = Vec::new(alloc);
    for _sender in senders {
        let (inlet, outlet) = clk_inlet::open(alloc, room)?;
        inlets.push(inlet)?;
        outlets.push(outlet)?;
    }
    Ok((inlets, outlets))
}

// Room for the tokens of the packets inside each queue of a plan. Fault 1 if an allocation fails.
fn tokens_of(alloc: Global, plan: &Plan) -> Result<Vec<HeapCircularBuffer<u64>>, Fault>
    ensures room { IfOk result (λ buffers. (counts : List ℕ) × ((trees : List Tree) → AreTreesOf plan.now trees → AreDrrsAbove (queues_of plan.now) trees counts) × AreRoomy (queues_of plan.now) counts (length (queues_of plan.now)) buffers.items) }
    ensures fault { IsOkUnless result Fault.Memory }
{
    let counts = plan.drrs_above(alloc)?;
    let queues = plan.queues();
    let mut tokens = Vec::new(alloc);
    for queue in 0..queues.len() {
        let room = queues[queue].capacity as usize + counts[queue] as usize;
        tokens.push(HeapCircularBuffer::with_capacity(alloc, room)?)?;
    }
    Ok(tokens)
}
