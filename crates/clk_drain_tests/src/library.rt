//! The library in a few lines, which docs/LIBRARY.md shows.

use clk_drain::{Free, run};
use clk_packet::{Fault, FromRead, Traces};
use clk_tree::Plan;

const TREE: &str = "a :: Sender(1); b :: Sender(2); p, q :: Queue(10); shares :: DRRSched(1500);
d :: ToDevice(link); a -> p -> [0] shares; b -> q -> [1] shares; shares -> d;";

#[test]
fn a_trace_runs_over_a_tree(rt: HostRuntime) -> Result<(), Fault> {
    let alloc = rt.alloc();
    let plan = Plan::read(alloc, TREE.as_bytes())?;
    let mut trace = FromRead::new(b"1,1500\n2,64\n1,40\n".as_slice());
    let traces = Traces::read_csv(alloc, &mut trace)?;
    // Each sender has a thread. Meanwhile the device is pulled once a tick, 1,000 times at most, and then all that is left is emitted.
    let outcome = run(&rt, alloc, &rt, &plan, &traces, 1, 1000, &Free)?;
    for tally in &outcome.tallies {
        let accepted = tally.accepted.as_slice().len();
        assert_eq!(rt; accepted, traces.count(tally.sender) as usize);
    }
    for emitted in &outcome.emitted {
        assert_eq!(rt; emitted.len(), 3);
    }
    Ok(())
}
