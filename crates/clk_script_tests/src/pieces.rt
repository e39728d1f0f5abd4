//! A reader that gives a script in pieces: where the pieces end changes nothing.

use crate::row::{AMPLE, assert_visits, run_within};
use clk_packet::{Failed, FailingSource, Fault, Source};
use clk_rows::{PRIO_TWO_QUEUES, SCRIPTS};
use std::alloc::Global;
use std::process::Abort;

// A source that gives a script, at most `most` bytes at a time.
#[derive(Drop)]
struct InPieces {
    script: FailingSource,
    most: usize,
}

impl Source for InPieces {
    ghost use Rattle.std.specs.Prelude.{None};

    ghost remaining = { λ s. None };

    ghost failures = { λ s. s.script.failures };

    fn read(&mut self, buf: &mut [u8]) -> Result<usize, Failed> {
        let room = buf.len().min(self.most);
        self.script.read(&mut buf[..room])
    }
}

// Fails unless a script ends in this way and writes this, if the reader gives at most `most` bytes at a time, and fails after it has given
// `limit` bytes.
fn assert_ends_in_pieces(
    rt: &impl Abort,
    alloc: Global,
    tree: &str,
    script: &[u8],
    (most, limit): (usize, usize),
    outcome: Result<(), Fault>,
    expected: &[u8],
) {
    let bytes = script.to_vec(alloc).expect(rt, "ample memory");
    let mut reader = InPieces {
        script: FailingSource::new(bytes, limit),
        most,
    };
    let run = run_within(
        alloc,
        tree,
        &mut reader,
        expected.len().saturating_add(AMPLE),
    );
    let (ended, written) = run.expect(rt, "ample memory");
    assert_eq!(rt;
        (ended, written.as_slice()),
        (outcome, expected),
        "in pieces of {most}"
    );
}

#[test]
fn rows_are_read_in_pieces(rt: HostRuntime) {
    for row in &SCRIPTS {
        for most in 1..=8 {
            assert_ends_in_pieces(
                &rt,
                rt.alloc(),
                row.tree,
                row.script.as_bytes(),
                (most, usize::MAX),
                Ok(()),
                row.answer.as_bytes(),
            );
        }
    }
}

#[test]
fn a_row_makes_its_visits_in_pieces(rt: HostRuntime) {
    let row = PRIO_TWO_QUEUES;
    for most in 1..=row.script.len() {
        let bytes = row.script.as_bytes().to_vec(rt.alloc());
        let mut reader = InPieces {
            script: FailingSource::new(bytes.expect(&rt, "ample memory"), usize::MAX),
            most,
        };
        assert_visits(&rt, rt.alloc(), &row, &mut reader);
    }
}

const LINES: &[u8] = b"send 0 40\r\n\r\n\tsend  1 60 \r\npull 3\r\npull 4";

const ANSWER: &[u8] = b"0#0 40 accepted\n1#0 60 accepted\npull 3: 0#0 40\npull 4: 1#0 60\n";

#[test]
fn a_piece_may_end_anywhere_in_a_line(rt: HostRuntime) {
    for most in 1..=LINES.len() {
        assert_ends_in_pieces(
            &rt,
            rt.alloc(),
            PRIO_TWO_QUEUES.tree,
            LINES,
            (most, usize::MAX),
            Ok(()),
            ANSWER,
        );
    }
}

// Each line is longer than what is read at a time.
#[test]
fn a_line_may_be_longer_than_a_piece(rt: HostRuntime) {
    let alloc = rt.alloc();
    let mut script = Vec::new(alloc);
    for line in [&b"send 0 40"[..], b"send 1 60", b"pull 3", b"pull 4"] {
        let blanks = vec![in alloc; b' '; 70_000].expect(&rt, "ample memory");
        script.extend_from_slice(line).expect(&rt, "ample memory");
        script
            .extend_from_slice(&blanks)
            .expect(&rt, "ample memory");
        script.extend_from_slice(b"\n").expect(&rt, "ample memory");
    }
    for most in [4_096, 16_384, 65_536, usize::MAX] {
        assert_ends_in_pieces(
            &rt,
            alloc,
            PRIO_TWO_QUEUES.tree,
            &script,
            (most, usize::MAX),
            Ok(()),
            ANSWER,
        );
    }
}

const WRONG: &[u8] = b"send 0 40\nsend 0\npull 3\nsend 9 40\n";

// The fault is that of the first line that has one, whatever follows it, and comes only at the end of the source.
#[test]
fn what_is_wrong_with_a_line_waits_for_the_end(rt: HostRuntime) {
    for most in 1..=WRONG.len() {
        for (limit, fault) in [
            (usize::MAX, Fault::BadScript { line: 2 }),
            (WRONG.len(), Fault::Read),
            (20, Fault::Read),
        ] {
            assert_ends_in_pieces(
                &rt,
                rt.alloc(),
                PRIO_TWO_QUEUES.tree,
                WRONG,
                (most, limit),
                Err(fault),
                b"",
            );
        }
    }
}

const WRONG_AT_END: &[u8] = b"send 0 40\npull 3\n\npull";

// The last line has a fault, and no line feed at its end.
#[test]
fn a_last_line_may_be_wrong_without_a_line_feed(rt: HostRuntime) {
    for most in 1..=WRONG_AT_END.len() {
        assert_ends_in_pieces(
            &rt,
            rt.alloc(),
            PRIO_TWO_QUEUES.tree,
            WRONG_AT_END,
            (most, usize::MAX),
            Err(Fault::BadScript { line: 4 }),
            b"",
        );
    }
}

// The lines before the one with the fault are more than is read at a time, and some lines cross the ends of pieces.
#[test]
fn the_number_of_a_wrong_line_counts_those_of_all_pieces(rt: HostRuntime) {
    let alloc = rt.alloc();
    let mut script = Vec::new(alloc);
    for _ in 0..20_000 {
        script
            .extend_from_slice(b"pull 0\n")
            .expect(&rt, "ample memory");
    }
    script
        .extend_from_slice(b"pull\npull 0\n")
        .expect(&rt, "ample memory");
    for most in [1_000, 65_536, usize::MAX] {
        assert_ends_in_pieces(
            &rt,
            alloc,
            PRIO_TWO_QUEUES.tree,
            &script,
            (most, usize::MAX),
            Err(Fault::BadScript { line: 20_001 }),
            b"",
        );
    }
}
