//! The consumer of a run: it takes packets from inlets, pulls devices, and records both.

use crate::recording::Recording;
use clk_gate::Gate;
use clk_live::Live;
use clk_packet::Sink;
use clk_script::Command;
use std::sync::Wait;
use std::thread;

/// How many packets of a sender are taken in a round at most.
const EACH: u32 = 64;

/// A live router, and the record of what happens to it.
#[derive(Drop)]
pub struct RecordedLive<R: Sink + Drop> {
    pub live: Live,
    pub recording: Recording<R>,
}

impl<R: Sink + Drop> RecordedLive<R> {
    ghost use Rattle.std.specs.Prelude.{◌≡◌, ◌≤◌, ◌<◌, ◌*◌, ℕ, length};
    ghost use Rattle.clk_gate.specs.declared.limits.TheConstants.{MAX_LIMIT, MAX_STEP};
    ghost use Rattle.clk_sched.specs.declared.limits.TheConstants.{END_OF_MOMENTS};
    ghost use Rattle.clk_script.specs.declared.limits.TheConstants.{MAX_MOMENT};
    ghost use Rattle.clk_live.specs.State.{AllGoOn};
    ghost use Rattle.clk_live_run.specs.Run.{moments_at};
    ghost use Rattle.clk_live_run.specs.inside.Recording.{LeadsOn};
    ghost use Rattle.clk_live_run.specs.inside.Consuming.{commands_of, OnlyTook, PulledFirst, HasPaced, HasConsumed};

    /// Takes packets and pulls devices in rounds, until all inlets have ended and all that was sent is taken. A round takes at most 64
    /// packets of each sender. In each of the first `limit` rounds it then pulls each device once, in the n-th at moment `n * step`.
    pub fn consume<P: Wait, G: Gate>(&mut self, wait: &P, step: u32, limit: u32, gate: &G)
        requires step { step ≤ MAX_STEP }
        requires limit { limit ≤ MAX_LIMIT }
        requires unpulled { HasPaced step 0 self.old.live }
        ensures consumed { HasConsumed step limit self.old.live self.new.live }
        ensures recorded { LeadsOn self.old.recording self.new.recording (commands_of self.old.live.course) (commands_of self.new.live.course) }
    {
        let mut pulls = 0;
        for _ in wait.forever() {
            if self.live.is_ended() {
                return;
            }
            pulls = self.round(pulls, step, limit, gate);
        }
        unreachable!()
    }

    // Takes packets of each sender, and pulls each device once more if it was pulled fewer than `limit` times. Returns how often each
    // device was pulled then. If there was nothing to take, yields to other threads.
    fn round<G: Gate>(&mut self, pulls: u32, step: u32, limit: u32, gate: &G) -> u32
        requires step { step ≤ MAX_STEP }
        requires limit { (pulls ≤ limit) × (limit ≤ MAX_LIMIT) }
        requires paced { HasPaced step pulls self.old.live }
        ensures paced { HasPaced step result self.new.live }
        ensures few { result ≤ limit }
        ensures outlets { AllGoOn self.old.live.outlets self.new.live.outlets }
        ensures setup { self.new.live.course.setup ≡ self.old.live.course.setup }
        ensures recorded { LeadsOn self.old.recording self.new.recording (commands_of self.old.live.course) (commands_of self.new.live.course) }
    {
        if !self.take_round() {
            thread::yield_now();
        }
        if pulls == limit {
            return pulls;
        }
        self.pull_round(pulls + 1, step, gate);
        pulls + 1
    }

    // Takes packets of each sender in turn, by place. Returns whether it took one.
    fn take_round(&mut self) -> bool
        ensures took { OnlyTook self.old.live self.new.live }
        ensures recorded { LeadsOn self.old.recording self.new.recording (commands_of self.old.live.course) (commands_of self.new.live.course) }
    {
        let mut took = false;
        for place in 0..self.live.router().senders().len() {
            if self.take_from(place) {
                took = true;
            }
        }
        took
    }

    // Takes packets of the sender at a place. Returns whether it took one.
    fn take_from(&mut self, place: usize) -> bool
        requires there { place < length self.old.live.outlets }
        ensures took { OnlyTook self.old.live self.new.live }
        ensures recorded { LeadsOn self.old.recording self.new.recording (commands_of self.old.live.course) (commands_of self.new.live.course) }
    {
        let mut took = false;
        for _ in 0..EACH {
            let Some(taken) = self.live.take(place) else {
                return took;
            };
            took = true;
            let command = Command::Send {
                sender: taken.packet.sender,
                length: taken.packet.length,
            };
            self.recording.note(command);
        }
        took
    }

    // Pulls each device once, in the round with this number, counted from 1.
    fn pull_round<G: Gate>(&mut self, round: u32, step: u32, gate: &G)
        requires moment { (step ≤ MAX_STEP) × (round ≤ MAX_LIMIT) }
        requires few { (d : ℕ) → d < length self.old.live.course.setup.trees → length (moments_at self.old.live.course.setup self.old.live.course.events d) ≤ MAX_LIMIT }
        ensures pulled { PulledFirst (length self.old.live.course.setup.trees) (round * step) self.old.live self.new.live }
        ensures recorded { LeadsOn self.old.recording self.new.recording (commands_of self.old.live.course) (commands_of self.new.live.course) }
    {
        let moment = u64::from(round) * u64::from(step);
        for device in 0..self.live.router().devices() as u16 {
            let _ = self.live.pull(device, moment);
            gate.pulled(device, u64::from(round));
            self.recording.note(Command::Pull { device, moment });
        }
    }
}
