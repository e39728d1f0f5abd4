//! The caller of clk_live that its CALLING.md shows.

mod live;

use self::live::take_and_pull;
use crate::steps::token_of;
use clk_live::Live;
use clk_tree::Plan;
use std::test::Fail;

#[test]
fn a_packet_goes_through(rt: HostRuntime) -> Result<(), Fail> {
    let text = b"s :: Sender(7); q :: Queue; d :: ToDevice(link); s -> q -> d;";
    let plan = Plan::read(rt.alloc(), text).expect(&rt, "a plan");
    let (mut live, mut inlets) = Live::open(rt.alloc(), &plan, 1).expect(&rt, "a live router");
    let inlet = inlets.get_mut(0).expect(&rt, "an inlet");
    assert_eq!(rt; inlet.offer(64, token_of(7, 0)), Ok(0));
    assert!(rt; !live.router().senders().is_empty());
    let (taken, emitted) = take_and_pull(&mut live, 0, 3);
    let token = Some(token_of(7, 0));
    assert_eq!(rt; taken.map(|one| one.token), token);
    assert_eq!(rt; emitted.map(|one| one.token), token);
    Ok(())
}
