//! A live router and its inlets, for which a test does the steps of a row on one thread.

ghost use Rattle.std.specs.Prelude.{◌<◌, length};

use crate::steps::{EMPTY_SLOT, NONE_DEPARTED, NONE_EMITTED, Row, Sent, Step, token_of};
use clk_inlet::Inlet;
use clk_live::{DrainEnd, Emitted, Live, OfferOutcome, Taken};
use clk_packet::{Fault, Packet};
use clk_tree::Plan;
use std::alloc::Global;
use std::process::Abort;

// Whether these are the packet that was sent and the token that came with it.
fn is_sent(packet: Packet, token: u64, sent: Sent) -> bool {
    (packet.sender, packet.number, packet.length) == sent && token == token_of(sent.0, sent.1)
}

// Whether the packet was taken with its token, and accepted.
fn is_accepted(taken: &Taken, sent: Sent) -> bool {
    is_sent(taken.packet, taken.token, sent) && taken.outcome == OfferOutcome::Accepted
}

// Whether the second packet was evicted with its token.
fn is_evicted(outcome: OfferOutcome, sent: Sent) -> bool {
    match outcome {
        OfferOutcome::Evicted { packet, token } => is_sent(packet, token, sent),
        _ => false,
    }
}

// Whether these are the packets that were sent, in order, and all were accepted.
fn are_accepted(taken: &[Taken], expected: &[Sent]) -> bool {
    taken.len() == expected.len()
        && taken
            .iter()
            .zip(expected)
            .all(|(one, sent)| is_accepted(one, *sent))
}

/// A live router and its inlets.
#[derive(Drop)]
pub struct Bench {
    live: Live,
    inlets: Vec<Inlet>,
}

impl Bench {
    /// Opens a live router over the plan of a text. Its inlets have room for eight packets each.
    pub fn open(alloc: Global, text: &str) -> Result<Bench, Fault> {
        let plan = Plan::read(alloc, text.as_bytes())?;
        let (live, inlets) = Live::open(alloc, &plan, 8)?;
        Ok(Bench::new(live, inlets))
    }

    /// A live router with its inlets.
    pub fn new(live: Live, inlets: Vec<Inlet>) -> Bench {
        Bench { live, inlets }
    }

    // The inlet of a sender.
    fn inlet(&mut self, rt: &impl Abort, sender: u16) -> &mut Inlet {
        let place = self.place_of(rt, sender);
        self.inlets.get_mut(place).expect(rt, "an inlet")
    }

    // The place of a sender.
    fn place_of(&self, rt: &impl Abort, sender: u16) -> usize
        ensures { result < length self.now.live.outlets }
    {
        let router = self.live.router();
        let place = usize::from(router.place_of(sender).expect(rt, "a sender"));
        assert!(rt; place < router.senders().len());
        place
    }

    // Whether the packet's sender can offer it to its inlet.
    fn offers(&mut self, rt: &impl Abort, sent: Sent) -> bool {
        let (sender, number, length) = sent;
        assert!(rt; length >= 1);
        self.inlet(rt, sender)
            .offer(length, token_of(sender, number))
            == Ok(number)
    }

    // Takes the next packet of a sender.
    fn take(&mut self, rt: &impl Abort, sender: u16) -> Option<Taken> {
        let place = self.place_of(rt, sender);
        self.live.take(place)
    }

    // Whether a round takes these packets, and their queues accept all of them.
    fn takes(&mut self, only_fitting: bool, each: usize, room: usize, expected: &[Sent]) -> bool {
        let mut slots = [EMPTY_SLOT; 8];
        let taken = &mut slots[..room.min(8)];
        let count = if only_fitting {
            self.live.take_in_fitting(each, taken)
        } else {
            self.live.take_in(each, taken)
        };
        are_accepted(&taken[..count], expected)
    }

    // Whether `room` places get these packets of a sender, and its queue accepts all of them.
    fn takes_many(&mut self, rt: &impl Abort, sender: u16, room: usize, expected: &[Sent]) -> bool {
        let place = self.place_of(rt, sender);
        let mut slots = [EMPTY_SLOT; 8];
        let taken = &mut slots[..room.min(8)];
        let count = self.live.take_many(place, taken);
        are_accepted(&taken[..count], expected)
    }

    // Pulls the one device.
    fn pull(&mut self, rt: &impl Abort) -> Option<Emitted> {
        assert!(rt; self.live.router().can_pull(0, 0));
        self.live.pull(0, 0)
    }

    // Whether pulls of the one device fill at most `room` places, with these packets.
    fn pulls_many(&mut self, rt: &impl Abort, room: usize, expected: &[Sent]) -> bool {
        assert!(rt; self.live.router().can_pull(0, 0));
        let mut places = [NONE_EMITTED; 8];
        let emitted = &mut places[..room.min(8)];
        let count = self.live.pull_many(0, 0, emitted);
        count == expected.len()
            && emitted[..count]
                .iter()
                .zip(expected)
                .all(|(one, sent)| is_sent(one.packet, one.token, *sent))
    }

    // Whether a drain of the one device emits these packets at these moments, and ends in this way.
    fn drains(&mut self, room: usize, pulls: u64, expected: &[(u64, Sent)], end: DrainEnd) -> bool {
        // By this law, which does nothing, there is a device.
        let _ = self.live.router().devices();
        let mut places = [NONE_DEPARTED; 8];
        let departed = &mut places[..room.min(8)];
        let (count, ended) = self.live.drain(0, departed, pulls);
        ended == end
            && count == expected.len()
            && departed[..count].iter().zip(expected).all(|(one, (moment, sent))| {
                one.moment == *moment && is_sent(one.packet, one.token, *sent)
            })
    }

    // From which moment on the one device could emit a packet.
    fn due(&self) -> Option<u64> {
        // By this law, which does nothing, there is a device.
        let _ = self.live.router().devices();
        self.live.router().due(0)
    }

    // Whether these numbers of a sender's packets were accepted, refused, evicted and emitted.
    fn counts(&self, rt: &impl Abort, sender: u16, expected: [u64; 4]) -> bool {
        let place = self.place_of(rt, sender);
        let account = self
            .live
            .router()
            .accounts()
            .get(place)
            .expect(rt, "an account");
        let counts = account.counts;
        let totals = [
            counts.accepted,
            counts.refused,
            counts.evicted,
            counts.emitted,
        ];
        counts.sender == sender && totals.map(|total| total.packets) == expected
    }

    /// Does a step. Returns whether it has the result that the row says.
    pub fn does(&mut self, rt: &impl Abort, step: Step) -> bool {
        match step {
            Step::Offers(sent) => self.offers(rt, sent),
            Step::Ends(sender) => {
                self.inlet(rt, sender).end();
                true
            }
            Step::Accepted(sent) => self
                .take(rt, sent.0)
                .is_some_and(|one| is_accepted(&one, sent)),
            Step::Refused(sent) => self.take(rt, sent.0).is_some_and(|one| {
                is_sent(one.packet, one.token, sent) && one.outcome == OfferOutcome::Refused
            }),
            Step::Evicts(sent, evicted) => self.take(rt, sent.0).is_some_and(|one| {
                is_sent(one.packet, one.token, sent) && is_evicted(one.outcome, evicted)
            }),
            Step::NoneWaits(sender) => self.take(rt, sender).is_none(),
            Step::TakesIn(each, room, sent) => self.takes(false, each, room, sent),
            Step::TakesFitting(each, room, sent) => self.takes(true, each, room, sent),
            Step::TakesMany(sender, room, sent) => self.takes_many(rt, sender, room, sent),
            Step::Emits(sent) => self
                .pull(rt)
                .is_some_and(|one| is_sent(one.packet, one.token, sent)),
            Step::EmitsNone => self.pull(rt).is_none(),
            Step::EmitsMany(room, sent) => self.pulls_many(rt, room, sent),
            Step::Drains(room, pulls, sent, end) => self.drains(room, pulls, sent, end),
            Step::IsDue(expected) => self.due() == expected,
            Step::IsEnded(expected) => self.live.is_ended() == expected,
            Step::IsDrained(expected) => self.live.is_drained() == expected,
            Step::Counts(sender, expected) => self.counts(rt, sender, expected),
        }
    }

    /// Gives up the router. Returns whether the tokens of these packets are reclaimed, in order, and no others.
    pub fn reclaims(self, inside: &[(u16, u32)]) -> bool {
        let Bench { live, inlets: _ } = self;
        let mut reclaimed = live.reclaim();
        for (sender, number) in inside {
            if reclaimed.take() != Some(token_of(*sender, *number)) {
                return false;
            }
        }
        reclaimed.take().is_none() && reclaimed.take().is_none()
    }
}

/// Fails unless each step of each row has the result that the row says, and the tokens of the packets that are inside at the end are
/// reclaimed.
pub fn assert_rows(rt: &impl Abort, alloc: Global, rows: &[Row]) {
    for row in rows {
        let mut bench = Bench::open(alloc, row.tree).expect(rt, "a live router");
        assert_steps(rt, &mut bench, row.name, row.steps);
        assert!(rt; bench.reclaims(row.inside), "{}, inside", row.name);
    }
}

/// Fails unless each of these steps has the result that it says.
pub fn assert_steps(rt: &impl Abort, bench: &mut Bench, name: &str, steps: &[Step]) {
    for (at, step) in steps.iter().enumerate() {
        assert!(rt; bench.does(rt, *step), "{name}, step {at}: {step:?}");
    }
}
