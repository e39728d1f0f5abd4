//! A caller of each library, which its page CALLING.md shows: what follows from the library's contracts.

mod drain;
mod laws;
mod ruled;

use clk_packet::{Fault, FromRead, Packet, Traces};
use clk_tree::Plan;

const TREE: &str = "s :: Sender(1); q :: Queue(10); d :: ToDevice(link); s -> q -> d;";

#[test]
fn a_packet_is_taken_by_its_queue(rt: HostRuntime) -> Result<(), Fault> {
    let packet = Packet {
        number: 0,
        sender: 1,
        length: 10,
    };
    let settled = ruled::send_alone(rt.alloc(), &rt, packet)?;
    assert!(rt; settled.taken.is_empty());
    for tally in &settled.tallies {
        assert_eq!(rt; tally.accepted.as_slice(), [packet].as_slice());
    }
    Ok(())
}

#[test]
fn a_trace_goes_through_a_plan(rt: HostRuntime) -> Result<(), Fault> {
    let plan = Plan::read(rt.alloc(), TREE.as_bytes())?;
    let mut trace = FromRead::new(b"1,1500\n1,40\n".as_slice());
    let traces = Traces::read_csv(rt.alloc(), &mut trace)?;
    let outcome = drain::run_each_tick(&rt, rt.alloc(), &rt, &plan, &traces)?;
    for emitted in &outcome.emitted {
        assert_eq!(rt; emitted.len(), 2);
    }
    Ok(())
}

#[test]
fn a_run_is_by_the_laws(rt: HostRuntime) -> Result<(), Fault> {
    let plan = Plan::read(rt.alloc(), TREE.as_bytes())?;
    let mut trace = FromRead::new(b"1,1500\n".as_slice());
    let traces = Traces::read_csv(rt.alloc(), &mut trace)?;
    let outcome = laws::run_by_the_laws(&rt, rt.alloc(), &rt, &plan, &traces)?;
    for emitted in &outcome.emitted {
        assert_eq!(rt; emitted.len(), 1);
    }
    Ok(())
}
