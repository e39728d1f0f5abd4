//! A caller of the library, which its page CALLING.md shows: what follows from the library's contracts.

mod sched;

use clk_packet::{Fault, Packet};
use clk_sched::{Ask, Session, Tree};
use std::collections::VecDeque;

const PACKETS: [Packet; 2] = [
    Packet {
        number: 0,
        sender: 1,
        length: 10,
    },
    Packet {
        number: 1,
        sender: 1,
        length: 20,
    },
];

/// Packets that wait at every leaf alike.
#[derive(Drop)]
struct Waiting(VecDeque<Packet>);

impl Ask for Waiting {
    ghost use Rattle.std.specs.Prelude.{⊤, true};

    ghost has = { λ s leaf. true };

    ghost holds = { λ s leaf. 0 };

    ghost gives = { λ old leaf got new. ⊤ };

    fn ask(&mut self, _leaf: u16) -> Option<Packet> {
        self.0.pop_front()
    }
}

#[test]
fn two_pulls_bring_two_packets(rt: HostRuntime) -> Result<(), Fault> {
    let mut waiting = Waiting(VecDeque::new(rt.alloc()));
    for packet in PACKETS {
        waiting.0.push_back(packet)?;
    }
    let mut session = Session::new(rt.alloc(), Tree::leaf(0))?;
    sched::pull_twice(&mut session, &mut waiting, 7)?;
    assert_eq!(rt; session.as_emitted(), PACKETS.as_slice());
    Ok(())
}
