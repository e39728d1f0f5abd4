//! Sources, sinks and lists of packets.

mod fronts;
mod schedulers;
mod texts;
mod traces;

use clk_packet::{
    Failed, FailingSink, FailingSource, Fault, FromRead, Packet, Packets, Sink, Source, ToWrite,
};
use std::io::{self, ErrorKind, Read, Write};
use std::process::Abort;
use std::test::Fail;

// The functions below know a source or a sink by its trait alone.
fn first_two<S: Source>(source: &mut S) -> ([u8; 2], Result<usize, Failed>) {
    let mut buf = [0; 2];
    let count = source.read(&mut buf);
    (buf, count)
}

fn put<S: Sink>(sink: &mut S, bytes: &[u8]) -> Result<usize, Failed> {
    sink.write(bytes)
}

// Fails unless reads of two bytes each return these, one after another.
fn assert_gives<S: Source>(
    rt: &impl Abort,
    source: &mut S,
    expected: &[([u8; 2], Result<usize, Failed>)],
) {
    for read in expected {
        assert_eq!(rt; first_two(source), *read);
    }
}

// Fails unless writes of these bytes, one after another, return these results.
fn assert_takes<S: Sink>(
    rt: &impl Abort,
    sink: &mut S,
    expected: &[(&[u8], Result<usize, Failed>)],
) {
    for (bytes, answer) in expected {
        assert_eq!(rt; put(sink, bytes), *answer);
    }
}

// A reader that is interrupted each time.
#[derive(Drop)]
struct Interrupted;

impl Read for Interrupted {
    fn read(&mut self, _buf: &mut [u8]) -> io::Result<usize> {
        Err(io::Error::from(ErrorKind::Interrupted))
    }
}

#[test]
fn a_reader_gives_its_bytes(rt: HostRuntime) {
    let mut source = FromRead::new(&b"abc"[..]);
    let reads = [(*b"ab", Ok(2)), (*b"c\0", Ok(1)), (*b"\0\0", Ok(0))];
    assert_gives(&rt, &mut source, &reads);
}

#[test]
fn an_interrupted_read_fails(rt: HostRuntime) {
    let mut source = FromRead::new(Interrupted);
    assert_eq!(rt; first_two(&mut source), ([0; 2], Err(Failed)));
}

// A reader and a writer that are interrupted once, and then give and take a byte at a time.
#[derive(Drop)]
struct InterruptedOnce {
    interrupted: bool,
}

impl InterruptedOnce {
    fn new() -> InterruptedOnce {
        InterruptedOnce { interrupted: false }
    }

    // Whether this call is the first, which is interrupted.
    fn interrupts(&mut self) -> bool {
        let first = !self.interrupted;
        self.interrupted = true;
        first
    }
}

impl Read for InterruptedOnce {
    fn read(&mut self, buf: &mut [u8]) -> io::Result<usize> {
        if self.interrupts() {
            return Err(io::Error::from(ErrorKind::Interrupted));
        }
        let Some(first) = buf.first_mut() else {
            return Ok(0);
        };
        *first = b'a';
        Ok(1)
    }
}

impl Write for InterruptedOnce {
    fn write(&mut self, bytes: &[u8]) -> io::Result<usize> {
        if self.interrupts() {
            return Err(io::Error::from(ErrorKind::Interrupted));
        }
        Ok(bytes.len().min(1))
    }

    fn flush(&mut self) -> io::Result<()> {
        Ok(())
    }
}

// The call that is interrupted fails, and isn't made again.
#[test]
fn a_call_is_interrupted_once(rt: HostRuntime) {
    let mut source = FromRead::new(InterruptedOnce::new());
    assert_gives(&rt, &mut source, &[([0; 2], Err(Failed)), (*b"a\0", Ok(1))]);
    let mut sink = ToWrite::new(InterruptedOnce::new());
    assert_takes(&rt, &mut sink, &[(b"ab", Err(Failed)), (b"ab", Ok(1))]);
}

#[test]
fn a_writer_takes_bytes_until_it_is_full(rt: HostRuntime) {
    let mut room = [0; 3];
    let mut sink = ToWrite::new(&mut room[..]);
    let writes: [(&[u8], _); 4] = [
        (b"ab", Ok(2)),
        (b"cd", Ok(1)),
        (b"", Ok(0)),
        (b"d", Err(Failed)),
    ];
    assert_takes(&rt, &mut sink, &writes);
    drop(sink);
    assert_eq!(rt; room, *b"abc");
}

#[test]
fn a_failing_source_gives_what_it_may(rt: HostRuntime) -> Result<(), Fail> {
    let mut source = FailingSource::new(b"abcd".to_vec(rt.alloc())?, 3);
    let reads = [(*b"ab", Ok(2)), (*b"c\0", Ok(1)), (*b"\0\0", Err(Failed))];
    assert_gives(&rt, &mut source, &reads);
    let mut short = FailingSource::new(b"a".to_vec(rt.alloc())?, 2);
    assert_gives(&rt, &mut short, &[(*b"a\0", Ok(1)), (*b"\0\0", Ok(0))]);
    Ok(())
}

#[test]
fn a_failing_sink_takes_what_fits(rt: HostRuntime) -> Result<(), Fail> {
    let mut sink = FailingSink::new([0; 3].to_vec(rt.alloc())?);
    let writes: [(&[u8], _); 3] = [(b"ab", Ok(2)), (b"cd", Ok(1)), (b"d", Err(Failed))];
    assert_takes(&rt, &mut sink, &writes);
    assert_eq!(rt; sink.taken(), &b"abc"[..]);
    Ok(())
}

#[test]
fn packets_are_kept_in_order(rt: HostRuntime) {
    let first = Packet {
        number: 0,
        sender: 7,
        length: 10,
    };
    let second = Packet {
        number: 1,
        sender: 7,
        length: 20,
    };
    let mut packets = Packets::new(rt.alloc());
    for packet in [first, second] {
        assert_eq!(rt; packets.push(packet), Ok::<(), Fault>(()));
    }
    assert!(rt; packets.as_slice() == [first, second].as_slice());
    assert!(rt; packets.into_vec().as_slice() == [first, second].as_slice());
}
