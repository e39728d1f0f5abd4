//! Heads that are held at inputs whose queues are known to be empty.

use clk_packet::{Fault, Packet};
use clk_sched::{Ask, Session, Tree};
use std::alloc::Global;

// Queues with one packet, at leaf 5. Once they gave that, they know that all of them are empty.
#[derive(Drop)]
struct One {
    packet: Option<Packet>,
}

impl Ask for One {
    ghost use Rattle.std.specs.Prelude.{true};

    ghost has = { λ s leaf. true };

    ghost holds = { λ s leaf. 0 };

    ghost gives = { λ s leaf got t. Unit };

    fn ask(&mut self, leaf: u16) -> Option<Packet> {
        if leaf == 5 { self.packet.take() } else { None }
    }

    fn idle_from(&self, _leaf: u16, count: u16) -> u16 {
        if self.packet.is_none() { count } else { 0 }
    }
}

// A DRRSched of quantum 3 over nine queues.
fn drr_over_nine(alloc: Global) -> Result<Tree, Fault> {
    let quanta = vec![in alloc; 3, 3, 3, 3, 3, 3, 3, 3, 3]?;
    let leaves = vec![in alloc;
        Tree::leaf(0),
        Tree::leaf(1),
        Tree::leaf(2),
        Tree::leaf(3),
        Tree::leaf(4),
        Tree::leaf(5),
        Tree::leaf(6),
        Tree::leaf(7),
        Tree::leaf(8),
    ]?;
    Tree::drr(quanta, leaves)
}

#[test]
fn a_head_is_looked_at_where_its_queue_has_nothing(rt: HostRuntime) -> Result<(), Fault> {
    let packet = Packet {
        number: 0,
        sender: 0,
        length: 5,
    };
    let mut queues = One {
        packet: Some(packet),
    };
    let tree = drr_over_nine(rt.alloc())?;
    assert!(rt; tree.leaves_distinct());
    let mut session = Session::new(rt.alloc(), tree)?;
    assert_eq!(rt; session.pull(&mut queues, 0), Ok(None));
    assert!(rt; queues.packet.is_none(), "it is held as a head");
    assert_eq!(rt; session.pull(&mut queues, 1), Ok(Some(packet)));
    assert_eq!(rt; session.pull(&mut queues, 2), Ok(None));
    Ok(())
}
