//! Traces: what is sent, and which faults they have.

use clk_packet::{FailingSource, Fault, FromRead, Traces};
use std::alloc::{AllocError, Global};
use std::process::Abort;
use std::test::Fail;

/// How many records a trace may have.
const RECORDS: u32 = 1_000_000;

/// How many bytes a trace may have.
const BYTES: usize = 33_554_432;

/// Forty records.
const FORTY: &[u8] = b"0,1\n1,65535\n2,64\n3,1500\n65535,9\n0,2\n0,3\n\"7\",\"8\"\n10,11\r\n12,13\n\
    0,1\n1,65535\n2,64\n3,1500\n65535,9\n0,2\n0,3\n\"7\",\"8\"\n10,11\r\n12,13\n\
    0,1\n1,65535\n2,64\n3,1500\n65535,9\n0,2\n0,3\n\"7\",\"8\"\n10,11\r\n12,13\n\
    0,1\n1,65535\n2,64\n3,1500\n65535,9\n0,2\n0,3\n\"7\",\"8\"\n10,11\r\n12,13";

/// Forty records of senders with small numbers, which take less time to read.
const SMALL: &[u8] = b"0,1\n1,65535\n2,64\n3,1500\n4,9\n0,2\n0,3\n\"7\",\"8\"\n10,11\r\n12,13\n\
    0,1\n1,65535\n2,64\n3,1500\n4,9\n0,2\n0,3\n\"7\",\"8\"\n10,11\r\n12,13\n\
    0,1\n1,65535\n2,64\n3,1500\n4,9\n0,2\n0,3\n\"7\",\"8\"\n10,11\r\n12,13\n\
    0,1\n1,65535\n2,64\n3,1500\n4,9\n0,2\n0,3\n\"7\",\"8\"\n10,11\r\n12,13";

fn read(alloc: Global, text: &[u8]) -> Result<Traces, Fault> {
    Traces::read_csv(alloc, &mut FromRead::new(text))
}

// Fails unless a trace has this fault.
fn assert_refused(rt: &impl Abort, alloc: Global, text: &[u8], fault: Fault) {
    assert_eq!(rt; read(alloc, text).err(), Some(fault));
}

// The packet of a number that a sender sends, by a trace.
fn told(traces: &Traces, sender: u16, number: u32) -> Option<(u16, u32, u16)> {
    let packet = traces.sent(sender, number)?;
    Some((packet.sender, packet.number, packet.length))
}

// Fails unless a sender sends packets of these lengths, at most eight, and no others.
fn assert_sends(rt: &impl Abort, traces: &Traces, sender: u16, lengths: &[u16]) {
    assert_eq!(rt;
        traces.count(sender) as usize,
        lengths.len(),
        "of sender {sender}"
    );
    for number in 0..10 {
        let expected = match lengths.get(number as usize) {
            Some(length) => Some((sender, number, *length)),
            None => None,
        };
        assert_eq!(rt; told(traces, sender, number), expected);
    }
}

/// Traces with a bad record, and which it is.
const BAD: &[(&[u8], u32)] = &[
    (b"1,2\n3", 2),
    (b"1,2,3", 1),
    (b"1,2\n\n3,4\n5,\n", 3),
    (b"sender,length\n", 1),
    (b"65536,1", 1),
    (b"0,65536", 1),
    (b"0, 5", 1),
    (b"3,10\n3,0", 2),
    (b"99999999999999999999,1", 1),
    (b"1,2\n3,0\n", 2),
    (b"1,2\n3,65536\n", 2),
    (b"1,2\n,5\n", 2),
    (b"1,2\n3,4x\n", 2),
    (b"0,1\n70000,1\n", 2),
    (b"0,0065536\n", 1),
    (b"0,0000000\n", 1),
];

#[test]
fn a_record_is_two_numbers_in_their_ranges(rt: HostRuntime) {
    for (text, row) in BAD {
        assert_refused(&rt, rt.alloc(), text, Fault::BadTrace { row: *row });
    }
}

#[test]
fn zeros_may_lead_a_number(rt: HostRuntime) -> Result<(), Fail> {
    let traces = read(rt.alloc(), b"0,00000000000000000000000000000064")?;
    assert_sends(&rt, &traces, 0, &[64]);
    Ok(())
}

#[test]
fn an_empty_trace_sends_nothing(rt: HostRuntime) -> Result<(), Fail> {
    let traces = read(rt.alloc(), b"")?;
    assert_sends(&rt, &traces, 0, &[]);
    assert_sends(&rt, &traces, 65_535, &[]);
    Ok(())
}

#[test]
fn each_sender_numbers_its_own_packets(rt: HostRuntime) -> Result<(), Fail> {
    let traces = read(rt.alloc(), b"4,10\n0,20\n4,30\n65535,1\n0,40\n4,65535\n")?;
    assert_sends(&rt, &traces, 0, &[20, 40]);
    assert_sends(&rt, &traces, 1, &[]);
    assert_sends(&rt, &traces, 4, &[10, 30, 65_535]);
    assert_sends(&rt, &traces, 65_535, &[1]);
    Ok(())
}

// A byte order mark at the front and empty lines are no records, quotes are removed, and carriage returns end lines.
#[test]
fn records_are_as_csv_reads_them(rt: HostRuntime) -> Result<(), Fail> {
    let traces = read(
        rt.alloc(),
        b"\xEF\xBB\xBF1,2\r\n\r\n\n\"1\",\"3\"\r1,\"4\"5",
    )?;
    assert_sends(&rt, &traces, 1, &[2, 3, 45]);
    Ok(())
}

/// Traces that say the same. The lines of the first are two numbers in digits alone, and a line feed. The second has more to skip.
const ALIKE: &[(&[u8], &[u8])] = &[
    (b"1,2\n3,4\n1,5\n", b"\"1\",2\n3,\"4\"\n\"1\",\"5\"\n"),
    (b"1,2\n3,4\n1,5\n", b"1,2\r\n3,4\r\n1,5\r\n"),
    (b"1,2\n3,4\n1,5\n", b"1,2\n3,4\r1,5\n"),
    (b"1,2\n3,4\n1,5\n", b"\n1,2\n\n\n3,4\n1,5\n\n"),
    (b"1,2\n3,4\n1,5\n", b"1,2\n3,4\n1,5"),
    (b"1,2\n3,4\n1,5\n", b"\xEF\xBB\xBF1,2\n3,4\n1,5\n"),
    (b"001,0002\n03,4\n1,00005\n", b"1,2\n3,4\n1,5"),
    (b"1,2\n3,4\n1,5\n", b"01,2\n003,\"04\"\n1,000005"),
    (b"2,65535\n0,1\n3,65535\n", b"2,\"65535\"\n0,1\n3,65535\n"),
    (
        b"1,0000002\n3,00000004\n0000001,5\n00000001,6\n",
        b"\"1\",2\n3,4\n1,5\n1,6\n",
    ),
];

// Fails unless two traces send the same, by senders below 4, and sender 3 sends something.
fn assert_alike(rt: &impl Abort, one: &Traces, other: &Traces) {
    assert!(rt; one.sent(3, 0).is_some());
    for sender in 0..4 {
        assert_eq!(rt; one.count(sender), other.count(sender));
        for number in 0..3 {
            assert_eq!(rt; told(one, sender, number), told(other, sender, number));
        }
    }
}

#[test]
fn plain_lines_say_what_other_lines_do(rt: HostRuntime) -> Result<(), Fail> {
    for (plain, other) in ALIKE {
        assert_alike(&rt, &read(rt.alloc(), plain)?, &read(rt.alloc(), other)?);
    }
    Ok(())
}

// Whether a trace was read, or has a bad record.
fn is_read_or_bad(outcome: Result<Traces, Fault>) -> bool {
    match outcome {
        Ok(_) | Err(Fault::BadTrace { .. }) => true,
        Err(_) => false,
    }
}

#[test]
fn a_front_of_a_trace_is_one_or_has_a_bad_record(rt: HostRuntime) {
    for end in 0..=SMALL.len() {
        let (front, _) = SMALL.split_at(end);
        assert!(rt; is_read_or_bad(read(rt.alloc(), front)), "{end} bytes");
    }
}

/// The bytes that replace each byte of a trace.
const OTHERS: [u8; 8] = [b'x', b'9', b',', b'"', b'\n', b'\r', 200, 0];

// A text in which the byte at a place is replaced.
fn with_byte(alloc: Global, text: &[u8], place: usize, byte: u8) -> Result<Vec<u8>, AllocError> {
    let mut altered = text.to_vec(alloc)?;
    if let Some(old) = altered.get_mut(place) {
        *old = byte;
    }
    Ok(altered)
}

#[test]
fn a_trace_with_another_byte_is_one_or_has_a_bad_record(rt: HostRuntime) -> Result<(), Fail> {
    for place in 0..SMALL.len() {
        for byte in OTHERS {
            let altered = with_byte(rt.alloc(), SMALL, place, byte)?;
            let outcome = read(rt.alloc(), &altered);
            assert!(rt; is_read_or_bad(outcome), "{byte} at {place}");
        }
    }
    Ok(())
}

#[test]
fn a_failing_reader_is_told(rt: HostRuntime) -> Result<(), Fail> {
    for limit in 0..=FORTY.len() {
        let mut reader = FailingSource::new(FORTY.to_vec(rt.alloc())?, limit);
        let refused = Traces::read_csv(rt.alloc(), &mut reader).err();
        assert_eq!(rt; refused, Some(Fault::Read), "after {limit} bytes");
    }
    Ok(())
}

// tests/refuse-memory makes each allocation fail in turn: by plain lines, and by `csv`.
#[test]
fn reading_takes_memory(rt: HostRuntime) {
    for text in [b"0,1\n3,10\n0,2\n".as_slice(), b"0,1\n3,\"10\"\n0,2\n"] {
        let refused = read(rt.alloc(), text).err();
        assert_eq!(rt; refused, None);
    }
}

// A part, repeated so many times.
fn repeated(alloc: Global, part: &[u8], times: u32) -> Result<Vec<u8>, AllocError> {
    let mut text = Vec::new(alloc);
    for _ in 0..times {
        text.extend_from_slice(part)?;
    }
    Ok(text)
}

// A million records of sender 0.
fn million(alloc: Global) -> Result<Vec<u8>, AllocError> {
    let thousand = repeated(alloc, b"0,1\n", 1000)?;
    repeated(alloc, &thousand, 1000)
}

#[test]
fn a_trace_may_have_a_million_records(rt: HostRuntime) -> Result<(), Fail> {
    let traces = read(rt.alloc(), &million(rt.alloc())?)?;
    assert_eq!(rt; traces.count(0), RECORDS);
    assert_eq!(rt; told(&traces, 0, RECORDS - 1), Some((0, RECORDS - 1, 1)));
    assert_eq!(rt; told(&traces, 0, RECORDS), None);
    Ok(())
}

#[test]
fn a_record_too_many_may_hold_anything(rt: HostRuntime) -> Result<(), Fail> {
    let mut text = million(rt.alloc())?;
    text.extend_from_slice(b"x")?;
    assert_refused(&rt, rt.alloc(), &text, Fault::TooLarge);
    Ok(())
}

#[test]
fn a_trace_may_not_have_a_record_more(rt: HostRuntime) -> Result<(), Fail> {
    let mut text = million(rt.alloc())?;
    text.extend_from_slice(b"0,1\n")?;
    assert_refused(&rt, rt.alloc(), &text, Fault::TooLarge);
    Ok(())
}

#[test]
fn empty_lines_may_follow_a_million_records(rt: HostRuntime) -> Result<(), Fail> {
    let mut text = million(rt.alloc())?;
    text.extend_from_slice(b"\n\r\n\n")?;
    let traces = read(rt.alloc(), &text)?;
    assert_eq!(rt; traces.count(0), RECORDS);
    Ok(())
}

#[test]
fn bytes_are_counted_before_records_are_read(rt: HostRuntime) -> Result<(), Fail> {
    let text = vec![in rt.alloc(); b'x'; BYTES + 1]?;
    assert_refused(&rt, rt.alloc(), &text, Fault::TooLarge);
    Ok(())
}

#[test]
fn a_trace_may_have_32_mebibytes(rt: HostRuntime) -> Result<(), Fail> {
    let text = vec![in rt.alloc(); b'x'; BYTES]?;
    assert_refused(&rt, rt.alloc(), &text, Fault::BadTrace { row: 1 });
    Ok(())
}
