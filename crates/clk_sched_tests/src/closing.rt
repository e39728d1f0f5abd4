//! Drains that stop at the bound, since what they pull from hides a packet, or has fewer packets than are said to be left; and how near
//! other drains come to it.

use crate::row::{Step, assert_shows};
use clk_fixtures::trees::{drr_path, shaped_drr_path};
use clk_packet::{Fault, Packet};
use clk_sched::{Ask, Session, Tree};

// A queue with one packet, which gives none when it is first asked.
#[derive(Drop)]
struct Hidden {
    packet: Option<Packet>,
    asked: bool,
}

impl Ask for Hidden {
    ghost use Rattle.std.specs.Prelude.{true, length, []};
    ghost use Rattle.std.specs.List.{cons_option};

    ghost has = { λ s leaf. true };

    ghost holds = { λ s leaf. length (cons_option s.packet []) };

    ghost gives = { λ s leaf got t. Unit };

    fn ask(&mut self, _leaf: u16) -> Option<Packet> {
        if self.asked {
            return self.packet.take();
        }
        self.asked = true;
        None
    }
}

#[test]
fn a_packet_that_was_hidden_does_not_come_out(rt: HostRuntime) -> Result<(), Fault> {
    let packet = Packet {
        number: 0,
        sender: 0,
        length: 10,
    };
    let mut queue = Hidden {
        packet: Some(packet),
        asked: false,
    };
    let mut session = Session::new(rt.alloc(), Tree::leaf(0))?;
    assert_eq!(rt;
        session.drain(&mut queue, 1, 0),
        Err(Fault::TooManyPulls { pulls: 1 })
    );
    assert!(rt; queue.packet.is_some(), "it still has the packet");
    Ok(())
}

#[test]
fn more_than_is_left_does_not_come_out(rt: HostRuntime) {
    let steps = [Step::Send(0, &[10]), Step::Drain(2, 0)];
    assert_shows(
        &rt,
        rt.alloc(),
        Ok(Tree::leaf(0)),
        &steps,
        "drain: fault 17: TooManyPulls 2\n",
    );
}

// The longest packet goes past DRRScheds that stand one over another. Each of these pulls it once more for each of its quanta. The rows
// have the bound, and the pulls that are made.
#[test]
fn drains_come_near_the_bound(rt: HostRuntime) {
    let cases = [
        (drr_path(rt.alloc(), 1, 1), "bound: 131072\ndrain: 65535\n"),
        (drr_path(rt.alloc(), 2, 1), "bound: 196608\ndrain: 131069\n"),
        (drr_path(rt.alloc(), 3, 1), "bound: 262144\ndrain: 196603\n"),
        (
            drr_path(rt.alloc(), 64, 257),
            "bound: 16640\ndrain: 16257\n",
        ),
        (
            shaped_drr_path(rt.alloc(), 63, 257),
            "bound: 16640\ndrain: 16003\n",
        ),
    ];
    let steps = [Step::Send(0, &[65_535]), Step::Bound(1), Step::Drain(1, 0)];
    for (tree, expected) in cases {
        assert_shows(&rt, rt.alloc(), tree, &steps, expected);
    }
}
