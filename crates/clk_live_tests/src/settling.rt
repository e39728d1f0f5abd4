//! Settling a live router on the thread that has its inlets too.

ghost use Rattle.std.specs.Prelude.{◌<◌, length, IfOk};
ghost use Rattle.std.specs.List.{AllZip};
ghost use Rattle.clk_inlet.specs.Halves.{AreHalves};
ghost use Rattle.clk_inlet.specs.declared.outlet.Outlet.{Outlet};

use clk_inlet::Inlet;
use clk_live::Live;
use clk_packet::Fault;
use clk_tree::Plan;
use std::alloc::Global;
use std::process::Abort;

const TREE: &str =
    "a :: Sender(1); b :: Sender(2); q :: Queue; d :: ToDevice(link); a -> q -> d; b -> q;";

// A live router and its inlets.
fn opened(alloc: Global) -> Result<(Live, Vec<Inlet>), Fault>
    ensures halves { IfOk result (λ r. AllZip AreHalves r.1.items r.0.outlets) }
{
    let plan = Plan::read(alloc, TREE.as_bytes())?;
    Live::open(alloc, &plan, 2)
}

// Offers a packet and ends the inlet.
fn send(rt: &impl Abort, inlet: &mut Inlet)
    ensures halves { (o : Outlet) → AreHalves inlet.old o → AreHalves inlet.new o }
{
    let number = inlet.offer(64, 7);
    assert_eq!(rt; number, Ok(0));
    inlet.end();
}

// Offers a packet of the sender at this place and ends its inlet.
fn send_at(rt: &impl Abort, live: &Live, inlets: &mut [Inlet], place: usize)
    requires halves { AllZip AreHalves inlets.old live.now.outlets }
    requires there { place < length inlets.old }
    ensures halves { AllZip AreHalves inlets.new live.now.outlets }
{
    send(rt, &mut inlets[place]);
}

// Takes the next packet of the sender at this place. Returns whether one was there.
#[tactic(auto, using(clk_live::proofs::Callers::Halves::all_go_on))]
fn takes(rt: &impl Abort, live: &mut Live, inlets: &[Inlet], place: usize) -> bool
    requires halves { AllZip AreHalves inlets.now live.old.outlets }
    ensures halves { AllZip AreHalves inlets.now live.new.outlets }
{
    assert!(rt; place < live.router().senders().len());
    live.take(place).is_some()
}

// Pulls the device. Returns whether it emitted a packet.
fn emits(rt: &impl Abort, live: &mut Live, inlets: &[Inlet]) -> bool
    requires halves { AllZip AreHalves inlets.now live.old.outlets }
    ensures halves { AllZip AreHalves inlets.now live.new.outlets }
{
    assert!(rt; live.router().can_pull(0, 0));
    live.pull(0, 0).is_some()
}

// Fails unless all that was sent is settled, or is not, as expected.
fn assert_settled(rt: &impl Abort, live: &mut Live, inlets: &mut [Inlet], expected: bool)
    requires halves { AllZip AreHalves inlets.old live.old.outlets }
    ensures halves { AllZip AreHalves inlets.new live.new.outlets }
{
    let is_settled = live.is_settled(inlets);
    assert_eq!(rt; is_settled, expected);
}

// The sender at this place sends its one packet, which goes through. The router is not settled while the packet is inside; whether it is
// settled after that is as expected.
fn go_through(rt: &impl Abort, live: &mut Live, inlets: &mut [Inlet], place: usize, expected: bool)
    requires halves { AllZip AreHalves inlets.old live.old.outlets }
    ensures halves { AllZip AreHalves inlets.new live.new.outlets }
{
    assert_settled(rt, live, inlets, false);
    assert!(rt; place < inlets.len());
    send_at(rt, live, inlets, place);
    let takes_packet = takes(rt, live, inlets, place);
    let takes_end = !takes(rt, live, inlets, place);
    assert_settled(rt, live, inlets, false);
    let emits_packet = emits(rt, live, inlets);
    assert!(rt; takes_packet && takes_end && emits_packet);
    assert_settled(rt, live, inlets, expected);
}

// The router is settled once the second sender has ended too.
#[test]
fn it_is_settled_at_the_end(rt: HostRuntime) -> Result<(), Fault> {
    let (mut live, mut inlets) = opened(rt.alloc())?;
    go_through(&rt, &mut live, &mut inlets, 0, false);
    go_through(&rt, &mut live, &mut inlets, 1, true);
    Ok(())
}
