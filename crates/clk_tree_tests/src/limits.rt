//! Texts at their limits and past them.

use crate::row::assert_answer;
use std::alloc::{AllocError, Global};

/// A piece of a text for each number from the first to the one before the second. The number replaces each `%`.
type Pieces = (&'static str, u32, u32);

/// A queue with a sender, at the input of its number.
const INPUT: &str = "s% :: Sender(%); q% :: Queue; s% -> q% -> [%] x;";

/// A sender to the queue `q`.
const SENDER: &str = "s% :: Sender(%); s% -> q;";

/// A tree of a queue and its device.
const TREE: &str = "q% :: Queue; d% :: ToDevice(l); q% -> d%;";

/// 64 bytes at which no token begins.
const MARKS: &str = "????????????????????????????????????????????????????????????????";

const DEVICE: Pieces = ("; d :: ToDevice(link); x -> d;", 0, 1);

/// Texts in pieces, with the lines of their faults; the line is empty if a text has none.
const TEXTS: &[(&[Pieces], &str)] = &[
    // Inputs are 64 at most.
    (&[("x :: PrioSched", 0, 1), DEVICE, (INPUT, 0, 64)], ""),
    (
        &[("x :: PrioSched", 0, 1), DEVICE, (INPUT, 0, 65)],
        "fault 18: TooLarge",
    ),
    (
        &[("x :: RoundRobinSched", 0, 1), DEVICE, (INPUT, 0, 64)],
        "",
    ),
    (
        &[("x :: RoundRobinSched", 0, 1), DEVICE, (INPUT, 0, 65)],
        "fault 18: TooLarge",
    ),
    (&[("x :: DRRSched", 0, 1), DEVICE, (INPUT, 0, 64)], ""),
    (
        &[("x :: DRRSched", 0, 1), DEVICE, (INPUT, 0, 65)],
        "fault 18: TooLarge",
    ),
    // Arguments are 64 at most, too. An input that isn't connected counts before too many inputs.
    (
        &[
            ("x :: DRRSched(1", 0, 1),
            (", %", 1, 64),
            (")", 0, 1),
            DEVICE,
            (INPUT, 0, 64),
        ],
        "",
    ),
    (
        &[
            ("x :: DRRSched(1", 0, 1),
            (", %", 1, 65),
            (")", 0, 1),
            DEVICE,
            (INPUT, 0, 64),
        ],
        "fault 9: PortMissing 0",
    ),
    (
        &[
            ("x :: DRRSched(1", 0, 1),
            (", %", 1, 65),
            (")", 0, 1),
            DEVICE,
            (INPUT, 0, 65),
        ],
        "fault 18: TooLarge",
    ),
    (
        &[
            ("x :: StrideSched(1", 0, 1),
            (", %", 1, 64),
            (")", 0, 1),
            DEVICE,
            (INPUT, 0, 64),
        ],
        "",
    ),
    (
        &[
            ("x :: StrideSched(1", 0, 1),
            (", %", 1, 65),
            (")", 0, 1),
            DEVICE,
            (INPUT, 0, 64),
        ],
        "fault 9: PortMissing 0",
    ),
    (
        &[
            ("x :: StrideSched(1", 0, 1),
            (", %", 1, 65),
            (")", 0, 1),
            DEVICE,
            (INPUT, 0, 65),
        ],
        "fault 18: TooLarge",
    ),
    // Shapers on a path are 64 at most.
    (
        &[
            ("q :: Queue; d :: ToDevice(l);", 0, 1),
            ("h% :: Shaper(1);", 0, 64),
            ("q", 0, 1),
            (" -> h%", 0, 64),
            (" -> d", 0, 1),
        ],
        "",
    ),
    (
        &[
            ("q :: Queue; d :: ToDevice(l);", 0, 1),
            ("h% :: Shaper(1);", 0, 65),
            ("q", 0, 1),
            (" -> h%", 0, 65),
            (" -> d", 0, 1),
        ],
        "fault 18: TooLarge",
    ),
    // Elements are 256 at most, of all trees together.
    (
        &[
            ("q :: Queue; d :: ToDevice(l); q -> d;", 0, 1),
            (SENDER, 2, 256),
        ],
        "",
    ),
    (
        &[
            ("q :: Queue; d :: ToDevice(l); q -> d;", 0, 1),
            (SENDER, 2, 257),
        ],
        "fault 18: TooLarge",
    ),
    (&[(TREE, 0, 128)], ""),
    (&[(TREE, 0, 129)], "fault 18: TooLarge"),
    // A scheduler that leads to itself counts before too many elements.
    (
        &[
            (
                "r :: PrioSched; r -> r; q :: Queue; d :: ToDevice(l); q -> d;",
                0,
                1,
            ),
            (SENDER, 3, 257),
        ],
        "fault 13: NotATree 0",
    ),
    // Bytes are a mebibyte at most.
    (&[(MARKS, 0, 16_384)], "fault 2: BadText 0"),
    (&[(MARKS, 0, 16_384), ("?", 0, 1)], "fault 18: TooLarge"),
];

fn add_pieces(
    alloc: Global,
    text: &mut String,
    piece: &str,
    from: u32,
    to: u32,
) -> Result<(), AllocError> {
    for number in from..to {
        let number = format!(in alloc; "{number}")?;
        text.push_str(&piece.replace(alloc, "%", &number)?)?;
    }
    Ok(())
}

fn text_of(alloc: Global, pieces: &[Pieces]) -> Result<String, AllocError> {
    let mut text = String::new(alloc);
    for (piece, from, to) in pieces {
        add_pieces(alloc, &mut text, piece, *from, *to)?;
    }
    Ok(text)
}

#[test]
fn sizes_are_bounded(rt: HostRuntime) {
    for (pieces, line) in TEXTS {
        let text = text_of(rt.alloc(), pieces).expect(&rt, "memory");
        assert_answer(&rt, rt.alloc(), text.as_bytes(), line);
    }
}
