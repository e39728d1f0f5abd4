//! Reports of worked rows, and of many senders and packets.

use crate::values::{packet, sink_of};
use clk_packet::{Counts, Fault, Packet, Packets, Tally, Total};
use clk_report::{MAX_DEVICES, report, report_line, report_tallies};
use clk_rows::{EVICTS_OTHER_SENDER, Row, TAIL_DROP_FULL};
use std::alloc::{AllocError, Global};
use std::process::Abort;

/// What a sender's tally has: its number, and the packets that were accepted, refused and evicted.
type Sent<'a> = (u16, &'a [Packet], &'a [Packet], &'a [Packet]);

fn tally(alloc: Global, sent: Sent) -> Result<Tally, AllocError> {
    let (sender, accepted, refused, evicted) = sent;
    Ok(Tally {
        sender,
        accepted: Packets::from(accepted.to_vec(alloc)?),
        refused: Packets::from(refused.to_vec(alloc)?),
        evicted: Packets::from(evicted.to_vec(alloc)?),
    })
}

fn tallies(alloc: Global, sent: &[Sent]) -> Result<Vec<Tally>, AllocError> {
    let mut tallies = Vec::new(alloc);
    for sent in sent {
        tallies.push(tally(alloc, *sent)?)?;
    }
    Ok(tallies)
}

fn lists(alloc: Global, emitted: &[&[Packet]]) -> Result<Vec<Vec<Packet>>, AllocError> {
    let mut lists = Vec::new(alloc);
    for packets in emitted {
        lists.push(packets.to_vec(alloc)?)?;
    }
    Ok(lists)
}

// Fails unless this is the report of these tallies and of the packets emitted at each device. Fails unless a writer that fails after fewer
// bytes has taken these.
fn assert_reports(
    rt: &impl Abort,
    alloc: Global,
    sent: &[Sent],
    emitted: &[&[Packet]],
    expected: &[u8],
) {
    let tallies = tallies(alloc, sent).expect(rt, "ample memory");
    let emitted = lists(alloc, emitted).expect(rt, "ample memory");
    for room in 0..expected.len() {
        assert_takes(
            rt,
            alloc,
            &tallies,
            &emitted,
            &expected[..room],
            Err(Fault::Write),
        );
    }
    assert_takes(rt, alloc, &tallies, &emitted, expected, Ok(()));
}

// Reports to a sink with room for so many bytes, by what was emitted and by the tallies alone, which account for it. Fails unless the
// result is this, and these bytes were written.
fn assert_takes(
    rt: &impl Abort,
    alloc: Global,
    tallies: &[Tally],
    emitted: &[Vec<Packet>],
    bytes: &[u8],
    expected: Result<(), Fault>,
) {
    assert!(rt; emitted.len() <= MAX_DEVICES);
    let mut sink = sink_of(alloc, bytes.len()).expect(rt, "ample memory");
    assert_eq!(rt; report(tallies, emitted, &mut sink), expected);
    assert!(rt; sink.taken() == bytes);
    let mut sink = sink_of(alloc, bytes.len()).expect(rt, "ample memory");
    assert_eq!(rt; report_tallies(tallies, &mut sink), expected);
    assert!(rt; sink.taken() == bytes);
}

// The report at the end of what the script of a row writes.
fn report_of(rt: &impl Abort, row: &Row) -> &'static [u8] {
    let place = row.answer.find("sender ").expect(rt, "a report");
    row.answer.get(place..).expect(rt, "a report").as_bytes()
}

#[test]
fn a_refused_packet_was_sent(rt: HostRuntime) {
    let [first, second] = [packet(0, 0, 10), packet(0, 1, 20)];
    let sent = [(0, &[first][..], &[second][..], &[][..])];
    let expected = report_of(&rt, &TAIL_DROP_FULL);
    assert_reports(&rt, rt.alloc(), &sent, &[&[first]], expected);
}

#[test]
fn a_packet_is_evicted_by_another_sender(rt: HostRuntime) {
    let [first, second] = [packet(0, 0, 100), packet(1, 0, 60)];
    let none = &[][..];
    let sent = [
        (0, &[first][..], none, &[first][..]),
        (1, &[second], none, none),
    ];
    let expected = report_of(&rt, &EVICTS_OTHER_SENDER);
    assert_reports(&rt, rt.alloc(), &sent, &[&[second]], expected);
}

#[test]
fn no_sender_has_no_line(rt: HostRuntime) {
    assert_reports(&rt, rt.alloc(), &[], &[&[packet(0, 0, 10)]], b"");
}

// Two of the senders need the larger table.
#[test]
fn a_sender_is_beyond_the_small_table(rt: HostRuntime) {
    let [few, next] = [packet(255, 0, 10), packet(256, 0, 20)];
    let last = packet(65_535, 0, 30);
    let none = &[][..];
    let sent = [
        (255, &[few][..], none, none),
        (256, &[next], none, none),
        (65_535, &[last], none, none),
    ];
    let expected = b"sender 255: sent 1 10, accepted 1 10, refused 0 0, evicted 0 0, emitted 1 10\n\
        sender 256: sent 1 20, accepted 1 20, refused 0 0, evicted 0 0, emitted 1 20\n\
        sender 65535: sent 1 30, accepted 1 30, refused 0 0, evicted 0 0, emitted 1 30\n";
    assert_reports(&rt, rt.alloc(), &sent, &[&[last, few, next]], expected);
}

// Sender 256 is the least that needs the larger table.
#[test]
fn sender_256_is_the_only_one(rt: HostRuntime) {
    let least = packet(256, 0, 20);
    let sent = [(256, &[least][..], &[][..], &[][..])];
    let expected =
        b"sender 256: sent 1 20, accepted 1 20, refused 0 0, evicted 0 0, emitted 1 20\n";
    assert_reports(&rt, rt.alloc(), &sent, &[&[least]], expected);
}

// Sender 2 has a place in the small table and no tally; 256, 257 and 65535 have neither.
#[test]
fn packets_of_senders_without_a_tally_are_left_out(rt: HostRuntime) {
    let first = packet(1, 0, 10);
    let none = &[][..];
    let sent = [(0, none, none, none), (1, &[first], none, none)];
    let packets = [
        packet(65_535, 0, 50),
        packet(256, 0, 40),
        first,
        packet(257, 0, 30),
        packet(2, 0, 20),
    ];
    let expected = b"sender 0: sent 0 0, accepted 0 0, refused 0 0, evicted 0 0, emitted 0 0\n\
        sender 1: sent 1 10, accepted 1 10, refused 0 0, evicted 0 0, emitted 1 10\n";
    assert_reports(&rt, rt.alloc(), &sent, &[&packets], expected);
}

// Packets of sender 0 were emitted at the first and at the last device, and none at the one between.
#[test]
fn packets_are_emitted_at_several_devices(rt: HostRuntime) {
    let [first, second] = [packet(0, 0, 10), packet(0, 1, 20)];
    let other = packet(1, 0, 5);
    let none = &[][..];
    let sent = [
        (0, &[first, second][..], none, none),
        (1, &[other], none, none),
    ];
    let emitted = [&[first][..], none, &[other, second]];
    let expected = b"sender 0: sent 2 30, accepted 2 30, refused 0 0, evicted 0 0, emitted 2 30\n\
        sender 1: sent 1 5, accepted 1 5, refused 0 0, evicted 0 0, emitted 1 5\n";
    assert_reports(&rt, rt.alloc(), &sent, &emitted, expected);
}

#[test]
fn without_a_device_nothing_is_emitted(rt: HostRuntime) {
    let refused = packet(7, 0, 10);
    let sent = [(7, &[][..], &[refused][..], &[][..])];
    let expected = b"sender 7: sent 1 10, accepted 0 0, refused 1 10, evicted 0 0, emitted 0 0\n";
    assert_reports(&rt, rt.alloc(), &sent, &[], expected);
}

#[test]
fn a_line_stands_alone(rt: HostRuntime) {
    let counts = Counts {
        sender: 3,
        accepted: Total {
            packets: 2,
            bytes: 50,
        },
        refused: Total {
            packets: 1,
            bytes: 20,
        },
        evicted: Total {
            packets: 1,
            bytes: 40,
        },
        emitted: Total {
            packets: 1,
            bytes: 10,
        },
    };
    let expected =
        b"sender 3: sent 3 70, accepted 2 50, refused 1 20, evicted 1 40, emitted 1 10\n";
    let mut sink = sink_of(rt.alloc(), expected.len()).expect(&rt, "ample memory");
    assert_eq!(rt; report_line(&counts, &mut sink), Ok(()));
    assert!(rt; sink.taken() == expected.as_slice());
}

// A packet of each sender there may be.
fn one_of_each(alloc: Global) -> Result<Vec<Packet>, AllocError> {
    let mut packets = Vec::new(alloc);
    for sender in 0..=u16::MAX {
        packets.push(packet(sender, 0, 1))?;
    }
    Ok(packets)
}

// A tally for each of these packets, which was accepted.
fn accepted_alone(alloc: Global, packets: &[Packet]) -> Result<Vec<Tally>, AllocError> {
    let mut all = Vec::new(alloc);
    for packet in packets {
        all.push(one_accepted(alloc, *packet)?)?;
    }
    Ok(all)
}

fn one_accepted(alloc: Global, packet: Packet) -> Result<Tally, AllocError> {
    let accepted = [packet];
    tally(alloc, (packet.sender, &accepted, &[], &[]))
}

// The line of each sender there may be, if one packet of it, of one byte, was emitted.
fn line_of_each(alloc: Global) -> Result<String, AllocError> {
    let mut text = String::new(alloc);
    for sender in 0..=u16::MAX {
        writeln!(
            text,
            "sender {sender}: sent 1 1, accepted 1 1, refused 0 0, evicted 0 0, emitted 1 1"
        )?;
    }
    Ok(text)
}

#[test]
fn each_sender_has_its_line(rt: HostRuntime) {
    let packets = one_of_each(rt.alloc()).expect(&rt, "memory");
    let tallies = accepted_alone(rt.alloc(), &packets).expect(&rt, "memory");
    let expected = line_of_each(rt.alloc()).expect(&rt, "memory");
    assert_takes(
        &rt,
        rt.alloc(),
        &tallies,
        &[packets],
        expected.as_bytes(),
        Ok(()),
    );
}

#[test]
fn a_sender_has_a_million_packets(rt: HostRuntime) {
    let longest = packet(65_535, 999_999, 65_535);
    let packets = million(rt.alloc(), longest).expect(&rt, "memory");
    let sent = (65_535, packets.as_slice(), &[][..], &[][..]);
    let tally = tally(rt.alloc(), sent).expect(&rt, "memory");
    let expected = b"sender 65535: sent 1000000 65535000000, accepted 1000000 65535000000, \
        refused 0 0, evicted 0 0, emitted 1000000 65535000000\n";
    assert_takes(&rt, rt.alloc(), &[tally], &[packets], expected, Ok(()));
}

// A million times the same packet.
fn million(alloc: Global, packet: Packet) -> Result<Vec<Packet>, AllocError> {
    Ok(vec![in alloc; packet; 1_000_000]?)
}
