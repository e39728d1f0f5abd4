//! The trees of plans.

use crate::row::{plan_of, session_of};
use clk_packet::Packet;
use clk_rows::NESTED_DEFICIT;
use clk_rows::trees::TWO_DEVICES;
use clk_sched::{Ask, Session};
use clk_tree::Plan;
use std::alloc::Global;
use std::process::Abort;

/// Three empty queues, which remember the order in which they were asked.
#[derive(Drop)]
struct Asked {
    /// For each queue, by its number, how many queues had been asked, itself included, when it was last asked.
    order: [u32; 3],
    count: u32,
}

impl Ask for Asked {
    ghost use Rattle.std.specs.Prelude.{true};

    ghost has = { λ s leaf. true };

    ghost holds = { λ s leaf. 0 };

    ghost gives = { λ s leaf got t. Unit };

    fn ask(&mut self, leaf: u16) -> Option<Packet> {
        self.count = self.count.saturating_add(1);
        *self.order.get_mut(usize::from(leaf))? = self.count;
        None
    }
}

// One packet takes at most 1 * 3 * (1 + 65,535 / 300, rounded up) pulls.
#[test]
fn quanta_of_a_text_bound_the_closing_pulls(rt: HostRuntime) {
    let plan = plan_of(&rt, rt.alloc(), NESTED_DEFICIT.tree.as_bytes());
    assert_eq!(rt; plan.devices(), 1);
    assert_eq!(rt; session_of(&rt, rt.alloc(), &plan, 0).bound(1), 660);
}

/// Texts, and for each device when each of their queues is asked in a pull, or 0 if it isn't asked.
const ASKED: [(&str, &[[u32; 3]]); 4] = [
    // c, b and a.
    (
        "a :: Queue; s :: Sender(4); b, c :: FrontDropQueue(3); p, r :: PrioSched; d :: ToDevice(x);
s -> b; b -> [1] p; a -> [2] p -> d; r -> p; c -> r;",
        &[[3, 2, 1]],
    ),
    (TWO_DEVICES, &[[1, 0, 0], [0, 1, 0]]),
    // The first sender's queue leads to the second device.
    (
        "s :: Sender(0); t :: Sender(1); p, q :: Queue; a, b :: ToDevice(x); s -> p -> b; t -> q -> a;",
        &[[0, 1, 0], [1, 0, 0]],
    ),
    // r and p lead to the second device, and no sender to any.
    (
        "p, q, r :: Queue; h :: PrioSched; a, b :: ToDevice(x); q -> a; r -> h -> b; p -> [1] h;",
        &[[0, 1, 0], [2, 0, 1]],
    ),
];

/// When each queue is asked in the first pull of a session, which gives nothing.
fn asked_first(rt: &impl Abort, session: &mut Session) -> [u32; 3] {
    let mut asked = Asked {
        order: [0; 3],
        count: 0,
    };
    assert_eq!(rt; session.pull(&mut asked, 0), Ok(None));
    asked.order
}

/// Fails unless each device of a plan pulls queues in this order.
fn assert_asked(rt: &impl Abort, alloc: Global, plan: &Plan, orders: &[[u32; 3]]) {
    assert_eq!(rt; usize::from(plan.devices()), orders.len());
    for device in 0..plan.devices() {
        let mut session = session_of(rt, alloc, plan, device);
        let order = asked_first(rt, &mut session);
        assert_eq!(rt; Some(&order), orders.get(usize::from(device)));
    }
}

// A queue's number is its place among the queues as they are declared, and inputs are asked as they are connected.
#[test]
fn queues_are_asked_by_their_numbers(rt: HostRuntime) {
    for (text, orders) in &ASKED {
        let plan = plan_of(&rt, rt.alloc(), text.as_bytes());
        assert_asked(&rt, rt.alloc(), &plan, orders);
    }
}
