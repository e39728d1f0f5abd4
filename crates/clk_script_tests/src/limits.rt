//! The longest scripts, and the largest trees.

use crate::row::assert_ends;
use crate::text::{Pieces, text_of};
use clk_packet::Fault;
use clk_rows::trees::PRIO_OVER_ROOM_FOR_TWO;
use std::alloc::{AllocError, Global};

/// How many lines a script may have at most.
const LINES: usize = 1_000_000;

/// How many bytes a script may have at most.
const BYTES: usize = 33_554_432;

/// What a drain writes if nothing has happened.
const REPORT: &[u8] = b"sender 0: sent 0 0, accepted 0 0, refused 0 0, evicted 0 0, emitted 0 0\n\
    sender 1: sent 0 0, accepted 0 0, refused 0 0, evicted 0 0, emitted 0 0\n";

/// A script, which is a text with a number of line feeds before it and after it, how a run of it ends, and what it writes.
type Long = (
    &'static [u8],
    usize,
    usize,
    Result<(), Fault>,
    &'static [u8],
);

const SCRIPTS: [Long; 6] = [
    (b"", LINES, 0, Ok(()), b""),
    (b"", LINES + 1, 0, Err(Fault::TooLarge), b""),
    // A line too many may have any text.
    (b"x", LINES, 0, Err(Fault::TooLarge), b""),
    (b"drain 0\n", LINES - 1, 0, Ok(()), REPORT),
    // Blank lines after a drain count.
    (b"drain 0\n", 0, LINES - 1, Ok(()), REPORT),
    (b"drain 0\n", 0, LINES, Err(Fault::TooLarge), b""),
];

fn between_lines(
    alloc: Global,
    text: &[u8],
    before: usize,
    after: usize,
) -> Result<Vec<u8>, AllocError> {
    let mut script = vec![in alloc; b'\n'; before]?;
    script.extend_from_slice(text)?;
    script.extend_from_slice(&vec![in alloc; b'\n'; after]?)?;
    Ok(script)
}

#[test]
fn a_script_has_a_million_lines_at_most(rt: HostRuntime) {
    let alloc = rt.alloc();
    for (text, before, after, outcome, written) in SCRIPTS {
        let script = between_lines(alloc, text, before, after).expect(&rt, "ample memory");
        assert_ends(
            &rt,
            alloc,
            PRIO_OVER_ROOM_FOR_TWO,
            &script,
            outcome,
            written,
        );
    }
}

#[test]
fn a_script_has_32_mebibytes_at_most(rt: HostRuntime) {
    let script = vec![in rt.alloc(); b' '; BYTES + 1].expect(&rt, "ample memory");
    assert_ends(
        &rt,
        rt.alloc(),
        PRIO_OVER_ROOM_FOR_TWO,
        &script,
        Err(Fault::TooLarge),
        b"",
    );
}

/// A PrioSched over four, over which queues are spread, with a sender to the first. With the device these are seven elements besides the
/// queues.
const WIDE: Pieces = (
    "s :: Sender(0); x :: PrioSched; d :: ToDevice(link); x -> d; s -> q0_0;",
    0,
    1,
);

const SPREAD: Pieces = ("x% :: PrioSched; x% -> [%] x;", 0, 4);

/// Trees, a script over each, how it ends and what it writes.
const TREES: [(&[Pieces], &[u8], Result<(), Fault>, &[u8]); 2] = [
    // The device, five schedulers, 249 queues and a sender are 256.
    (
        &[
            WIDE,
            SPREAD,
            ("q0_% :: Queue; q0_% -> [%] x0;", 0, 63),
            ("q1_% :: Queue; q1_% -> [%] x1;", 0, 62),
            ("q2_% :: Queue; q2_% -> [%] x2;", 0, 62),
            ("q3_% :: Queue; q3_% -> [%] x3;", 0, 62),
        ],
        b"send 0 1\npull 0\n",
        Ok(()),
        b"0#0 1 accepted\npull 0: 0#0 1\n",
    ),
    (
        &[
            WIDE,
            SPREAD,
            ("q0_% :: Queue; q0_% -> [%] x0;", 0, 63),
            ("q1_% :: Queue; q1_% -> [%] x1;", 0, 63),
            ("q2_% :: Queue; q2_% -> [%] x2;", 0, 62),
            ("q3_% :: Queue; q3_% -> [%] x3;", 0, 62),
        ],
        b"send 0 1\n",
        Err(Fault::TooLarge),
        b"",
    ),
];

#[test]
fn trees_have_256_elements_at_most(rt: HostRuntime) {
    let alloc = rt.alloc();
    for (pieces, script, outcome, written) in TREES {
        let tree = text_of(alloc, pieces).expect(&rt, "ample memory");
        assert_ends(&rt, alloc, &tree, script, outcome, written);
    }
}
