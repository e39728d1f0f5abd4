//! A caller of the library, which its page CALLING.md shows: what follows from its contracts.

mod lint;

use clk_packet::Fault;
use clk_tree::Plan;

#[test]
fn a_plan_may_have_no_warning(rt: HostRuntime) -> Result<(), Fault> {
    let alloc = rt.alloc();
    let sound = b"s :: Sender(0); q :: Queue; d :: ToDevice(link); s -> q -> d;";
    assert!(rt; lint::is_sound(alloc, &Plan::read(alloc, sound)?)?);
    let lone = b"q :: Queue; d :: ToDevice(link); q -> d;";
    assert!(rt; !lint::is_sound(alloc, &Plan::read(alloc, lone)?)?);
    Ok(())
}
