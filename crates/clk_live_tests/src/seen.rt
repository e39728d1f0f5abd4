//! What the thread of a live router takes and emits, and whether it is all that was sent.

ghost use Rattle.std.specs.Prelude.{◌≤◌, length};
ghost use Rattle.clk_live.specs.State.{AllGoOn};

use crate::senders::{SENDERS, length_of};
use crate::steps::{EMPTY_SLOT, token_of};
use clk_live::{Emitted, Live, OfferOutcome, Taken};
use clk_packet::Packet;
use std::alloc::{AllocError, Global};
use std::process::Abort;
use std::sync::Wait;
use std::thread;

/// What was taken from inlets, and what was emitted.
#[derive(Drop)]
pub struct Seen {
    pub taken: Vec<Taken>,
    pub emitted: Vec<Emitted>,
}

impl Seen {
    /// Nothing as yet.
    pub fn none(alloc: Global) -> Seen {
        Seen {
            taken: Vec::new(alloc),
            emitted: Vec::new(alloc),
        }
    }
}

// Takes a round of at most two packets of each sender.
fn take_round(live: &mut Live, only_fitting: bool, slots: &mut [Taken]) -> usize
    ensures count { result ≤ length slots.new }
    ensures outlets { AllGoOn live.old.outlets live.new.outlets }
{
    if only_fitting {
        return live.take_in_fitting(2, slots);
    }
    live.take_in(2, slots)
}

// The result of a round and a pull.
enum Turn {
    Moved,
    Idle,
    // No pull is left.
    AtEnd,
}

// Takes a round, and pulls once.
fn take_turn(live: &mut Live, only_fitting: bool, seen: &mut Seen) -> Result<Turn, AllocError>
    ensures outlets { AllGoOn live.old.outlets live.new.outlets }
{
    let mut slots = [EMPTY_SLOT; 6];
    let count = take_round(live, only_fitting, &mut slots);
    seen.taken.extend_from_slice(&slots[..count])?;
    if !live.router().can_pull(0, 0) {
        return Ok(Turn::AtEnd);
    }
    if let Some(emitted) = live.pull(0, 0) {
        seen.emitted.push(emitted)?;
        return Ok(Turn::Moved);
    }
    Ok(if count > 0 { Turn::Moved } else { Turn::Idle })
}

// Whether all senders have ended and no packet is left.
fn is_over(live: &Live) -> bool {
    live.is_ended() && live.is_drained()
}

/// Takes and pulls in turn, until all senders have ended and no packet is left, or until `count` packets were emitted.
pub fn take_and_pull(
    rt: &impl Wait,
    live: &mut Live,
    only_fitting: bool,
    most: usize,
    seen: &mut Seen,
) -> Result<(), AllocError>
    ensures outlets { AllGoOn live.old.outlets live.new.outlets }
{
    for _ in rt.forever() {
        if seen.emitted.len() >= most || is_over(live) {
            break;
        }
        match take_turn(live, only_fitting, seen)? {
            Turn::Moved => {}
            Turn::Idle => thread::yield_now(),
            Turn::AtEnd => break,
        }
    }
    Ok(())
}

// Fails unless this packet came with this token and has the length that its sender gave it. Returns the token.
fn assert_token(rt: &impl Abort, packet: Packet, token: u64) -> u64 {
    assert_eq!(rt; token, token_of(packet.sender, packet.number));
    assert_eq!(rt; packet.length, length_of(packet.number));
    token
}

// The tokens of all packets that were refused, evicted or emitted, by rising sender and number.
fn tokens_out(rt: &impl Abort, alloc: Global, seen: &Seen) -> Result<Vec<u64>, AllocError> {
    let mut tokens = Vec::new(alloc);
    for one in &seen.taken {
        let token = assert_token(rt, one.packet, one.token);
        match one.outcome {
            OfferOutcome::Accepted => {}
            OfferOutcome::Refused => tokens.push(token)?,
            OfferOutcome::Evicted { packet, token } => tokens.push(assert_token(
                rt, packet, token,
            ))?,
        }
    }
    for one in &seen.emitted {
        tokens.push(assert_token(rt, one.packet, one.token))?;
    }
    tokens.sort_unstable();
    Ok(tokens)
}

// The tokens of all packets that the senders send, by rising sender and number.
fn tokens_sent(alloc: Global) -> Result<Vec<u64>, AllocError> {
    let mut tokens = Vec::new(alloc);
    for (sender, packets) in SENDERS {
        for number in 0..packets {
            tokens.push(token_of(sender, number))?;
        }
    }
    Ok(tokens)
}

/// Fails unless each token came back once, and the packets of each sender were emitted in order.
pub fn assert_settled(rt: &impl Abort, alloc: Global, seen: &Seen) -> Result<(), AllocError> {
    assert_eq!(rt; tokens_out(rt, alloc, seen)?, tokens_sent(alloc)?);
    for (sender, _) in SENDERS {
        let its = seen
            .emitted
            .iter()
            .filter(|one| one.packet.sender == sender);
        assert!(rt; its.is_sorted_by_key(|one| one.packet.number));
    }
    Ok(())
}
