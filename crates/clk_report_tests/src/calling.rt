//! A caller of the library, which its page CALLING.md shows: what follows from the library's contracts.

mod report;

use clk_packet::{FailingSink, Fault, Packet, Packets, Tally};
use clk_sched::Visit;

const PACKET: Packet = Packet {
    number: 0,
    sender: 1,
    length: 10,
};

#[test]
fn a_report_and_its_visits_are_written(rt: HostRuntime) -> Result<(), Fault> {
    let tally = Tally {
        sender: 1,
        accepted: Packets::from(vec![in rt.alloc(); PACKET]?),
        refused: Packets::new(rt.alloc()),
        evicted: Packets::new(rt.alloc()),
    };
    let emitted = [vec![in rt.alloc(); PACKET]?];
    let logs = [vec![in rt.alloc(); Visit::asking(0, 7, 0, 0, Some(PACKET))]?];
    let mut sink = FailingSink::new(vec![in rt.alloc(); 0; 1024]?);
    report::write_run(&[tally], &emitted, &logs, &mut sink)?;
    let expected = "sender 1: sent 1 10, accepted 1 10, refused 0 0, evicted 0 0, emitted 1 10\n\
        pull,node,input,fresh,sender,number,length,passed,moment\n0,0,0,1,1,0,10,1,7\n";
    assert_eq!(rt; sink.taken(), expected.as_bytes());
    Ok(())
}
