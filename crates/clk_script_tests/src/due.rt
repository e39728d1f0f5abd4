//! The moments from which on a device of a router could emit a packet: worked rows, and random steps.

ghost use Rattle.std.specs.Prelude.{◌<◌};
ghost use Rattle.clk_sched.specs.declared.limits.TheConstants.{END_OF_MOMENTS};

use self::Step::{Emits, EmitsNone, IsDue, IsIdle, Offers};
use crate::random::Random;
use clk_packet::{Fault, Packet};
use clk_router::{CountingRouter, Router};
use clk_sched::{Keeps, Session};
use clk_tree::Plan;
use std::alloc::Global;
use std::process::Abort;

/// How many steps are taken at random with each router.
const RANDOM_STEPS: u32 = 300;

/// A step of a row over a router, with its expected result.
#[derive(Clone, Copy)]
enum Step {
    /// The sender at this place offers a packet of this length.
    Offers(usize, u16),
    /// A pull of a device at this moment emits the packet of this sender and this number.
    Emits(u16, u64, (u16, u32)),
    /// A pull of a device at this moment emits none.
    EmitsNone(u16, u64),
    /// A device could emit a packet from this moment on.
    IsDue(u16, u64),
    /// No packet is left for a device.
    IsIdle(u16),
}

/// A router, and a session of the tree of its first device. The session is never pulled, and has the closing bound.
#[derive(Drop)]
struct Bench {
    router: CountingRouter,
    first: Session,
}

impl Bench {
    fn open(rt: &impl Abort, alloc: Global, text: &str) -> Bench {
        let plan = Plan::read(alloc, text.as_bytes()).expect(rt, "a plan");
        let some = plan.devices() > 0;
        assert!(rt; some);
        let tree = plan.tree(alloc, 0).expect(rt, "ample memory");
        Bench {
            router: CountingRouter::open(alloc, &plan).expect(rt, "ample memory"),
            first: Session::new(alloc, tree).expect(rt, "ample memory"),
        }
    }

    fn offer(&mut self, rt: &impl Abort, place: usize, length: u16) {
        assert!(rt; self.router.can_offer(place));
        assert!(rt; length >= 1);
        self.router.offer(place, length);
    }

    fn pull(&mut self, rt: &impl Abort, device: u16, moment: u64) -> Option<Packet> {
        assert!(rt; self.router.can_pull(device, moment));
        self.router.pull(device, moment)
    }

    // The due moment of a device. There is one exactly if a packet is left for the device, and it is the device's latest moment or the next
    // tick.
    fn due(&self, rt: &impl Abort, device: u16) -> Option<u64> {
        assert!(rt; usize::from(device) < self.router.devices());
        let due = self.router.due(device);
        assert_eq!(rt; due.is_some(), self.router.left(device) > 0);
        if let Some(due) = due {
            let now = self.router.moment(device);
            assert!(rt; due == now || due == now + 1);
        }
        due
    }

    // Does a step. Returns whether it has the result that the row says.
    fn does(&mut self, rt: &impl Abort, step: Step) -> bool {
        match step {
            Offers(place, length) => {
                self.offer(rt, place, length);
                true
            }
            Emits(device, moment, sent) => self
                .pull(rt, device, moment)
                .is_some_and(|packet| (packet.sender, packet.number) == sent),
            EmitsNone(device, moment) => self.pull(rt, device, moment).is_none(),
            IsDue(device, moment) => self.due(rt, device) == Some(moment),
            IsIdle(device) => self.due(rt, device).is_none(),
        }
    }

    // Pulls the first device `after` ticks after its latest moment. Returns whether packets were left for it and none was due; then the
    // pull has to emit none.
    fn is_early(&mut self, rt: &impl Abort, after: u16) -> bool {
        let due = self.due(rt, 0);
        let moment = self.moment(rt) + u64::from(after);
        let got = self.pull(rt, 0, moment);
        match due {
            Some(due) if due <= moment => false,
            due => {
                assert_eq!(rt; got, None);
                due.is_some()
            }
        }
    }

    // The latest moment of the first device.
    fn moment(&self, rt: &impl Abort) -> u64
        ensures { result < END_OF_MOMENTS }
    {
        assert!(rt; self.router.devices() > 0);
        self.router.moment(0)
    }

    // The closing bound of what is left for the first device.
    fn bound(&self, rt: &impl Abort) -> u64 {
        assert!(rt; self.router.devices() > 0);
        let left = self.router.left(0);
        assert!(rt; left <= 1_000_000);
        self.first.bound(left)
    }

    // Pulls the first device at its due moment, if there is one, until a packet is emitted, as often as the closing bound allows. Returns
    // whether a pull emitted none.
    fn saves_up(&mut self, rt: &impl Abort) -> bool {
        let Some(due) = self.due(rt, 0) else {
            return false;
        };
        for pull in 0..self.bound(rt) {
            if self.pull(rt, 0, due).is_some() {
                return pull > 0;
            }
        }
        panic!(rt; "no packet is emitted")
    }
}

// Takes the steps of a row over the router of a text.
fn assert_steps(rt: &impl Abort, alloc: Global, name: &str, text: &str, steps: &[Step]) {
    let mut bench = Bench::open(rt, alloc, text);
    for (place, step) in steps.iter().enumerate() {
        assert!(rt; bench.does(rt, *step), "{name}: step {place}");
    }
}

// Each device has its own latest moment, its own packets and its own Shapers.
#[test]
fn devices_are_due_by_themselves(rt: HostRuntime) {
    let text =
        "s :: Sender(0); t :: Sender(1); p, q :: Queue; x :: Shaper(1, 1); a, b :: ToDevice(l);
        s -> p -> [0] x; x -> a; t -> q -> b;";
    let steps = [
        IsIdle(0),
        IsIdle(1),
        Offers(1, 10),
        IsIdle(0),
        IsDue(1, 0),
        Offers(0, 10),
        Offers(0, 10),
        IsDue(0, 0),
        Emits(0, 4, (0, 0)),
        IsDue(0, 5),
        IsDue(1, 0),
        EmitsNone(0, 4),
        IsDue(0, 5),
        Emits(1, 2, (1, 0)),
        IsIdle(1),
        IsDue(0, 5),
        Emits(0, 5, (0, 1)),
        IsIdle(0),
    ];
    assert_steps(&rt, rt.alloc(), "two devices", text, &steps);
}

// A packet that a queue refuses or evicts is not due.
#[test]
fn packets_that_are_out_are_not_due(rt: HostRuntime) {
    let steps = [
        Offers(0, 10),
        Offers(0, 20),
        IsDue(0, 0),
        Emits(0, 3, (0, 0)),
        IsIdle(0),
    ];
    let text = "s :: Sender(0); q :: Queue(1); d :: ToDevice(link); s -> q -> d;";
    assert_steps(&rt, rt.alloc(), "a full Queue", text, &steps);
    let steps = [
        Offers(0, 10),
        Offers(0, 20),
        IsDue(0, 0),
        Emits(0, 3, (0, 1)),
        IsIdle(0),
        Offers(0, 10),
        IsDue(0, 4),
    ];
    let text = "s :: Sender(0); q :: FrontDropQueue(1); x :: Shaper(1, 1); d :: ToDevice(link);
        s -> q -> [0] x; x -> d;";
    assert_steps(&rt, rt.alloc(), "a full FrontDropQueue", text, &steps);
}

// A DRRSched holds a packet of 1,000 bytes until its input has two quanta of 500, while no queue has one.
#[test]
fn heads_are_due(rt: HostRuntime) {
    let steps = [
        Offers(0, 1000),
        IsDue(0, 0),
        EmitsNone(0, 6),
        IsDue(0, 6),
        Emits(0, 6, (0, 0)),
        IsIdle(0),
    ];
    let text = "s :: Sender(0); q :: Queue; x :: DRRSched(500); d :: ToDevice(link);
        s -> q -> [0] x; x -> d;";
    assert_steps(&rt, rt.alloc(), "a DRRSched that saves up", text, &steps);
    let steps = [
        Offers(0, 1000),
        Offers(1, 100),
        Emits(0, 0, (1, 0)),
        IsDue(0, 1),
        EmitsNone(0, 0),
        IsDue(0, 1),
        Emits(0, 1, (0, 0)),
        IsIdle(0),
    ];
    let text =
        "s :: Sender(0); t :: Sender(1); p, q :: Queue; x :: DRRSched(500); y :: Shaper(1, 1);
        d :: ToDevice(link); s -> p -> [0] x; t -> q -> [1] x; x -> [0] y; y -> d;";
    assert_steps(&rt, rt.alloc(), "a Shaper over a head", text, &steps);
}

fn due_of(rt: &impl Abort, router: &Router) -> Option<u64> {
    assert!(rt; router.devices() > 0);
    router.due(0)
}

// A router that keeps visits has a due moment too.
#[test]
fn routers_that_keep_visits_are_due(rt: HostRuntime) -> Result<(), Fault> {
    let text =
        b"s :: Sender(0); q :: Queue; x :: Shaper(1, 1); d :: ToDevice(l); s -> q -> [0] x; x -> d;";
    let plan = Plan::read(rt.alloc(), text)?;
    let keeps = Keeps {
        visits: true,
        packed: false,
        packets: false,
        latest: false,
    };
    let mut router = Router::open(rt.alloc(), &plan, keeps)?;
    assert_eq!(rt; due_of(&rt, &router), None);
    for _ in 0..2 {
        assert!(rt; router.can_offer(0));
        router.offer(0, 64);
    }
    assert_eq!(rt; due_of(&rt, &router), Some(0));
    assert!(rt; router.can_pull(0, 3));
    router.pull(0, 3)?;
    assert_eq!(rt; due_of(&rt, &router), Some(4));
    Ok(())
}

/// What random steps met: pulls before the due moment, and packets for which a DRRSched saved up at the due moment.
#[derive(Drop)]
struct Met {
    early: u32,
    saved_up: u32,
}

// Takes a step: a packet is offered, or the first device is pulled at its latest moment or the next tick, or at its due moment.
fn step_at_random(rt: &impl Abort, bench: &mut Bench, random: &mut Random, met: &mut Met) {
    match random.below(5) {
        0 | 1 => bench.offer(rt, usize::from(random.below(3)), 1 + random.below(1500)),
        2 | 3 => {
            if bench.is_early(rt, random.below(2)) {
                met.early = met.early.saturating_add(1);
            }
        }
        _ => {
            if bench.saves_up(rt) {
                met.saved_up = met.saved_up.saturating_add(1);
            }
        }
    }
}

// No pull before the due moment emits a packet, and pulls at the due moment do. In the second router the last sender's packets go to the
// other device.
#[test]
fn random_steps_emit_when_due(rt: HostRuntime) {
    let mut met = Met {
        early: 0,
        saved_up: 0,
    };
    for text in [
        "s :: Sender(0); t :: Sender(1); u :: Sender(2); p, r :: Queue; q :: FrontDropQueue(2);
        x :: Shaper(1, 1); y :: StrideSched(1, 2); z :: DRRSched(500); w :: Shaper(1, 2);
        d :: ToDevice(link); s -> p -> [0] x; x -> [0] z; t -> q -> [0] y; u -> r -> [1] y;
        y -> [1] z; z -> [0] w; w -> d;",
        "s :: Sender(0); t :: Sender(1); u :: Sender(2); p, q :: Queue(3); r :: Queue;
        x :: DRRSched(300); y :: Shaper(1, 1); z :: Shaper(1, 2); w :: PrioSched;
        d, e :: ToDevice(link); s -> p -> [0] x; x -> [0] y; y -> [0] w; t -> q -> [0] z;
        z -> [1] w; w -> d; u -> r -> e;",
    ] {
        let mut bench = Bench::open(&rt, rt.alloc(), text);
        let mut random = Random::new(1);
        for _ in 0..RANDOM_STEPS {
            step_at_random(&rt, &mut bench, &mut random, &mut met);
        }
    }
    assert!(rt; met.early > 10, "{} early pulls", met.early);
    assert!(rt; met.saved_up > 10, "{} packets saved up for", met.saved_up);
}
