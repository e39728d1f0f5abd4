//! Where the packets of all senders are, found by looking each of them up.

use crate::shared::{assert_packets, of_sender};
use crate::threads::packet;
use clk_packet::{Packet, Packets, Tally};
use clk_ruled::ClosedSeat;
use std::alloc::{AllocError, Global};
use std::process::Abort;

// How many packets a sender offers at most.
pub const ROOM: u32 = 10_000;

// Which packets were evicted: a place for each packet of senders 0, 1 and so on.
#[derive(Drop)]
pub struct PutOut {
    places: Vec<bool>,
}

fn place_of(packet: Packet) -> usize {
    usize::from(packet.sender)
        .saturating_mul(ROOM as usize)
        .saturating_add(packet.number as usize)
}

impl PutOut {
    // The packets that were evicted for any of the seats. Fails if one was evicted twice.
    pub fn of(rt: &impl Abort, alloc: Global, seats: &[ClosedSeat]) -> Result<PutOut, AllocError> {
        let places = seats.len().saturating_mul(ROOM as usize);
        let mut put_out = PutOut {
            places: vec![in alloc; false; places]?,
        };
        for seat in seats {
            put_out.note_all(rt, seat.evicted());
        }
        Ok(put_out)
    }

    fn note_all(&mut self, rt: &impl Abort, packets: &[Packet]) {
        for packet in packets {
            self.note(rt, *packet);
        }
    }

    fn note(&mut self, rt: &impl Abort, sent: Packet) {
        assert!(rt; sent.number < ROOM, "{sent:?} wasn't sent");
        assert_eq!(rt; sent, packet(sent.sender, sent.number));
        let place = self.places.get_mut(place_of(sent)).expect(rt, "a sender");
        assert!(rt; !*place, "{sent:?} was put out twice");
        *place = true;
    }

    pub fn has(&self, sent: Packet) -> bool {
        self.places.get(place_of(sent)).copied().unwrap_or(false)
    }

    pub fn count(&self) -> usize {
        self.places.iter().filter(|place| **place).count()
    }
}

// What comes after this packet, if it is the first.
fn after(packets: &[Packet], first: Packet) -> Option<&[Packet]> {
    match packets {
        [packet, rest @ ..] if *packet == first => Some(rest),
        _ => None,
    }
}

// Fails unless all packets that the sender offered are in the two lists together, in order.
pub fn assert_shared(rt: &impl Abort, seat: &ClosedSeat, accepted: &[Packet]) {
    assert_eq!(rt; seat.count_accepted(), accepted.len());
    let mut accepted = accepted;
    let mut refused = seat.refused();
    for number in 0..seat.room() {
        let sent = packet(seat.sender(), number);
        match after(accepted, sent) {
            Some(rest) => accepted = rest,
            None => refused = after(refused, sent).expect(rt, "each packet is in one list"),
        }
    }
    assert!(rt; accepted.is_empty() && refused.is_empty());
}

// The packets that were accepted and not evicted.
fn kept(alloc: Global, accepted: &[Packet], put_out: &PutOut) -> Result<Vec<Packet>, AllocError> {
    let mut kept = Vec::new(alloc);
    for packet in accepted {
        if !put_out.has(*packet) {
            kept.push(*packet)?;
        }
    }
    Ok(kept)
}

// Fails unless the packets pulled of the sender are those that were accepted and not evicted, in order.
pub fn assert_taken(
    rt: &impl Abort,
    alloc: Global,
    sender: u16,
    accepted: &[Packet],
    put_out: &PutOut,
    taken: &[Packet],
) -> Result<(), AllocError> {
    let kept = kept(alloc, accepted, put_out)?;
    let theirs = of_sender(alloc, sender, taken)?;
    assert_packets(rt, &theirs, &kept);
    Ok(())
}

// The tally of a seat's sender.
pub fn tally_of(
    alloc: Global,
    seat: &ClosedSeat,
    accepted: Packets,
    put_out: &PutOut,
) -> Result<Tally, AllocError> {
    let mut evicted = Vec::new(alloc);
    for packet in accepted.as_slice() {
        if put_out.has(*packet) {
            evicted.push(*packet)?;
        }
    }
    Ok(Tally {
        sender: seat.sender(),
        accepted,
        refused: Packets::from(seat.refused().to_vec(alloc)?),
        evicted: Packets::from(evicted),
    })
}
