//! Callers of clk_router and clk_script, which their pages CALLING.md show: what follows from their contracts.

mod router;
mod script;

use clk_packet::{FailingSink, Fault, Packet};
use clk_router::CountingRouter;
use clk_tree::Plan;

#[test]
fn a_packet_is_sent_and_pulled(rt: HostRuntime) -> Result<(), Fault> {
    let text = b"s :: Sender(0); q :: Queue; d :: ToDevice(link); s -> q -> d;";
    let plan = Plan::read(rt.alloc(), text)?;
    let mut sink = FailingSink::new(vec![in rt.alloc(); 0; 1024]?);
    script::run_text(rt.alloc(), b"send 0 64\npull 3\n", &plan, &mut sink)?;
    assert_eq!(rt;
        sink.taken(),
        b"0#0 64 accepted\npull 3: 0#0 64\n".as_slice()
    );
    Ok(())
}

#[test]
fn a_packet_goes_through_a_router(rt: HostRuntime) -> Result<(), Fault> {
    let text = b"s :: Sender(7); q :: Queue; d :: ToDevice(link); s -> q -> d;";
    let plan = Plan::read(rt.alloc(), text)?;
    let mut router = CountingRouter::open(rt.alloc(), &plan)?;
    let packet = Packet {
        number: 0,
        sender: 7,
        length: 64,
    };
    assert_eq!(rt; router::offer_and_pull(&mut router, 64, 3), Some(packet));
    assert_eq!(rt; router.place_of(7), Some(0));
    assert_eq!(rt; router.devices(), 1);
    assert_eq!(rt; router.moment(0), 3);
    assert_eq!(rt; router.left(0), 0);
    assert_eq!(rt; router.pulls(0), 1);
    assert!(rt; router.can_close(0, 3));
    assert!(rt; !router.can_close(1, 3));
    assert!(rt; !router.can_close(0, (1 << 43) - 1));
    for account in router.accounts() {
        assert_eq!(rt; account.counts.accepted.packets, 1);
        assert_eq!(rt; account.counts.emitted.bytes, 64);
        assert_eq!(rt; account.counts.refused.packets, 0);
    }
    Ok(())
}
