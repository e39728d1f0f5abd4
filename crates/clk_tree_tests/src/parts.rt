//! The queues and the senders of plans.

use crate::row::plan_of;
use clk_packet::Kind;
use clk_rows::trees::TWO_DEVICES;
use clk_tree::{Plan, QueueSpec, SenderSpec};
use std::alloc::{AllocError, Global};
use std::process::Abort;

/// Texts, and the queues and senders of their plans.
const TEXTS: [(&str, &str); 7] = [
    // Senders that aren't declared in order of their numbers, before and after the queues, and queues that aren't connected in order.
    (
        "t :: Sender(9); a :: FrontDropQueue(5); s :: Sender(2); b, c :: Queue; d :: ToDevice(x); p :: PrioSched;
u :: Sender(65535); v :: Sender(0); w :: Sender(10);
c -> p -> d; b -> [1] p; a -> [2] p; u -> a; t -> c; s -> c; v -> a; w -> c;",
        "devices: 1
TailDrop or FrontDrop, capacity, device: senders
FrontDrop 5 0: 0 65535
TailDrop 1000 0:
TailDrop 1000 0: 2 9 10
sender: queue
0: 0
2: 2
9: 2
10: 2
65535: 0
",
    ),
    (
        "s :: Sender(7); q :: Queue(1000000); d :: ToDevice(x); s -> q -> d;",
        "devices: 1
TailDrop or FrontDrop, capacity, device: senders
TailDrop 1000000 0: 7
sender: queue
7: 0
",
    ),
    (
        "d :: ToDevice(x); q -> d; q :: FrontDropQueue",
        "devices: 1
TailDrop or FrontDrop, capacity, device: senders
FrontDrop 1000 0:
sender: queue
",
    ),
    (
        TWO_DEVICES,
        "devices: 2
TailDrop or FrontDrop, capacity, device: senders
TailDrop 1000 0: 0
TailDrop 1000 1: 1
sender: queue
0: 0
1: 1
",
    ),
    (
        "a, b :: ToDevice(x); p, q :: Queue; p -> a; q -> b;",
        "devices: 2
TailDrop or FrontDrop, capacity, device: senders
TailDrop 1000 0:
TailDrop 1000 1:
sender: queue
",
    ),
    // The first sender's queue leads to the second device, on a longer path, and the other way round.
    (
        "s :: Sender(0); t :: Sender(1); p, q :: Queue; a, b :: ToDevice(x); h :: Shaper(1); s -> p -> h -> b; t -> q -> a;",
        "devices: 2
TailDrop or FrontDrop, capacity, device: senders
TailDrop 1000 1: 0
TailDrop 1000 0: 1
sender: queue
0: 0
1: 1
",
    ),
    // A device of which no queue has a sender.
    (
        "a, b, c :: ToDevice(x); p, q, r :: Queue; s :: Sender(5); t :: Sender(3); s -> p -> a; q -> b; t -> r -> c;",
        "devices: 3
TailDrop or FrontDrop, capacity, device: senders
TailDrop 1000 0: 5
TailDrop 1000 1:
TailDrop 1000 2: 3
sender: queue
3: 2
5: 0
",
    ),
];

// What a full queue does with a packet that arrives.
fn kind_name(kind: Kind) -> &'static str {
    match kind {
        Kind::TailDrop => "TailDrop",
        Kind::FrontDrop => "FrontDrop",
    }
}

/// A queue in a line.
fn add_queue(told: &mut String, queue: &QueueSpec) -> Result<(), AllocError> {
    let kind = kind_name(queue.kind);
    write!(told, "{kind} {} {}:", queue.capacity, queue.device)?;
    for sender in &queue.senders {
        write!(told, " {sender}")?;
    }
    told.push_str("\n")
}

/// How many devices a plan has, and its queues by their numbers, each in a line.
fn told_queues(alloc: Global, plan: &Plan) -> Result<String, AllocError> {
    let mut told = format!(in alloc; "devices: {}\n", plan.devices())?;
    told.push_str("TailDrop or FrontDrop, capacity, device: senders\n")?;
    for queue in plan.queues() {
        add_queue(&mut told, queue)?;
    }
    Ok(told)
}

/// The senders of a plan with the numbers of their queues, each in a line.
fn add_senders(told: &mut String, senders: &[SenderSpec]) -> Result<(), AllocError> {
    told.push_str("sender: queue\n")?;
    for sender in senders {
        write!(told, "{}: {}\n", sender.number, sender.queue)?;
    }
    Ok(())
}

/// The devices, the queues and the senders of a plan, in lines.
pub fn told_parts(rt: &impl Abort, alloc: Global, plan: &Plan) -> String {
    let mut told = told_queues(alloc, plan).expect(rt, "memory");
    add_senders(&mut told, plan.senders()).expect(rt, "memory");
    told
}

#[test]
fn plans_have_queues_and_senders(rt: HostRuntime) {
    for (text, parts) in &TEXTS {
        let plan = plan_of(&rt, rt.alloc(), text.as_bytes());
        assert_eq!(rt; told_parts(&rt, rt.alloc(), &plan).as_str(), *parts);
    }
}
