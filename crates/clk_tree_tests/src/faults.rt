//! Texts with a fault, and its line.

use crate::row::assert_answers;
use crate::sound::TEXTS;

/// A text for each fault, and texts in which more than one place could be named. A second ToDevice is no fault.
const FAULTS: &[(&str, &str)] = &[
    ("d :: ToDevice(x); /* cut", "fault 2: BadText 18"),
    ("q :: Que;", "fault 3: UnknownClass 5"),
    ("d :: ToDevice(x); r :: Que;", "fault 3: UnknownClass 23"),
    ("q :: Queue(0);", "fault 4: BadArgument 5"),
    ("q :: Queue; q :: Queue;", "fault 5: NameTwice 12"),
    ("a, d, d :: Queue;", "fault 5: NameTwice 6"),
    ("a -> b;", "fault 6: UnknownName 0"),
    (
        "d :: ToDevice(x); q :: Queue; q [1] -> d;",
        "fault 7: BadPort 30",
    ),
    (
        "s :: Sender(0); q :: Queue; p :: PrioSched; d :: ToDevice(x); s -> q -> p -> d; q -> p;",
        "fault 8: PortTwice 80",
    ),
    (
        "s :: Sender(0); q :: Queue; p :: PrioSched; d :: ToDevice(x); s -> q -> [1] p -> d;",
        "fault 9: PortMissing 28",
    ),
    (
        "s :: Sender(0); d :: ToDevice(x); s -> d;",
        "fault 10: WrongKind 34",
    ),
    ("", "fault 11: NoDevice"),
    ("a, b :: ToDevice(x); p, q :: Queue; p -> a; q -> b;", ""),
    (
        "a, b :: ToDevice(x); q :: Queue; q -> a;",
        "fault 9: PortMissing 3",
    ),
    (
        "a, b :: ToDevice(x); q :: Queue; q -> a; q -> b;",
        "fault 8: PortTwice 41",
    ),
    (
        "a, b :: ToDevice(x); q :: Queue; q -> a -> b;",
        "fault 7: BadPort 38",
    ),
    (
        "r :: RoundRobinSched; q :: Queue; d :: ToDevice(x); q -> d; r -> r;",
        "fault 13: NotATree 0",
    ),
    (
        "a, b :: ToDevice(x); p, q :: Queue; r :: RoundRobinSched; p -> a; q -> b; r -> r;",
        "fault 13: NotATree 36",
    ),
    (
        "s :: Sender(0); q :: Queue; d :: ToDevice(x); s -> q -> d; s -> q;",
        "fault 8: PortTwice 59",
    ),
];

/// Texts that break the grammar.
const BAD_TEXTS: &[(&str, &str)] = &[
    ("q :: Queue(", "fault 2: BadText 11"),
    ("q :: Queue; ->", "fault 2: BadText 12"),
    ("q : Queue;", "fault 2: BadText 2"),
    ("q :", "fault 2: BadText 2"),
    ("9q :: Queue;", "fault 2: BadText 0"),
    ("a [x] -> b;", "fault 2: BadText 3"),
    ("q :: Queue(5,);", "fault 2: BadText 13"),
    ("q :: /* x", "fault 2: BadText 5"),
    ("/*/", "fault 2: BadText 0"),
    ("q ::: Queue;", "fault 2: BadText 4"),
    ("a -> b [2]", "fault 2: BadText 10"),
    ("a -> b [2] ;", "fault 2: BadText 11"),
    ("q :: 9Queue;", "fault 2: BadText 5"),
    ("?", "fault 2: BadText 0"),
    // A token that can't stand comes before an open comment, and blanks and comments count at the end.
    ("; -> /* x", "fault 2: BadText 2"),
    ("q :: // x", "fault 2: BadText 9"),
    ("q :: ", "fault 2: BadText 5"),
    // A comment separates tokens, and few bytes are blanks.
    ("a/**/b", "fault 2: BadText 5"),
    ("q:/**/:Queue;", "fault 2: BadText 1"),
    ("q\x0B:: Queue;", "fault 2: BadText 1"),
    ("q :: Queue;\0", "fault 2: BadText 11"),
    ("a -> 9b", "fault 2: BadText 5"),
    ("a [1x] -> b", "fault 2: BadText 3"),
    ("a [] -> b", "fault 2: BadText 3"),
];

/// Which of several faults a text has.
const ORDERS: &[(&str, &str)] = &[
    ("a [70000] -> b", "fault 6: UnknownName 0"),
    ("q :: Queue;", "fault 9: PortMissing 0"),
    (
        "s :: Sender(0); q :: Queue; x :: DRRSched(1, 2); d :: ToDevice(l); s -> q -> x -> d;",
        "fault 9: PortMissing 28",
    ),
    ("x :: DRRSched(1, 0);", "fault 4: BadArgument 5"),
    ("s, t :: Sender(0);", "fault 4: BadArgument 8"),
    (
        "s :: Sender(0); t :: Sender(00);",
        "fault 4: BadArgument 21",
    ),
    ("s :: StrideSched;", "fault 4: BadArgument 5"),
    (
        "q :: Queue(18446744073709551616);",
        "fault 4: BadArgument 5",
    ),
    ("q :: Que; q :: Queue;", "fault 5: NameTwice 10"),
    (
        "q :: Queue; d :: ToDevice(x); q [65536] -> d;",
        "fault 7: BadPort 30",
    ),
    // A Sender has no input, and a ToDevice no output.
    (
        "s :: Sender(0); t :: Sender(1); q :: Queue; d :: ToDevice(x); q -> d; s -> t -> q;",
        "fault 7: BadPort 75",
    ),
    (
        "s :: Sender(0); d :: ToDevice(x); d -> s;",
        "fault 7: BadPort 34",
    ),
    // A carriage return doesn't end a comment.
    ("// x\r?", "fault 11: NoDevice"),
];

/// Texts with two faults that stand next to each other in the order of faults. In the first row of a pair, the fault that counts stands
/// before the other in the text, and in the second row behind it. A broken grammar is always the last fault in a text, since nothing behind
/// it is read. NoDevice and TooLarge have no place. A text of too many bytes that breaks the grammar, too, is among the limits.
const PAIRS: &[(&str, &str)] = &[
    // A name is declared twice, and the grammar is broken.
    ("q :: Queue; q :: Queue; ?", "fault 2: BadText 24"),
    // A name is declared twice, and its class is unknown.
    ("q, q :: Que;", "fault 5: NameTwice 3"),
    ("q :: Que; q :: Queue;", "fault 5: NameTwice 10"),
    // A class is unknown, and an argument is bad.
    ("r :: Que; q :: Queue(0);", "fault 3: UnknownClass 5"),
    ("q :: Queue(0); r :: Que;", "fault 3: UnknownClass 20"),
    // An argument is bad, and a name is unknown.
    ("q :: Queue(0); a -> b;", "fault 4: BadArgument 5"),
    ("a -> b; q :: Queue(0);", "fault 4: BadArgument 13"),
    // A name is unknown, and a port is bad.
    ("q :: Queue; a -> q; q [1] -> q;", "fault 6: UnknownName 12"),
    ("q :: Queue; q [1] -> q; a -> q;", "fault 6: UnknownName 24"),
    // A port is bad, and an output is used twice.
    (
        "q :: Queue; r :: PrioSched; q [1] -> r; q -> [1] r; q -> [2] r;",
        "fault 7: BadPort 28",
    ),
    (
        "q :: Queue; r :: PrioSched; q -> r; q -> [1] r; q [1] -> r;",
        "fault 7: BadPort 48",
    ),
    // An output is used twice, and another isn't connected.
    (
        "q -> r; q -> [1] r; q :: Queue; r :: PrioSched;",
        "fault 8: PortTwice 8",
    ),
    (
        "q :: Queue; r :: PrioSched; q -> r; q -> [1] r;",
        "fault 8: PortTwice 36",
    ),
    // An output isn't connected, and a Sender is connected to a device.
    (
        "q :: Queue; s :: Sender(0); d :: ToDevice(x); s -> d;",
        "fault 9: PortMissing 0",
    ),
    (
        "s :: Sender(0); d :: ToDevice(x); s -> d; q :: Queue;",
        "fault 9: PortMissing 42",
    ),
    // A Sender is connected to a scheduler, and there is no device.
    (
        "s :: Sender(0); r :: PrioSched; s -> r -> [1] r;",
        "fault 10: WrongKind 32",
    ),
    // There is no device, and a scheduler leads to itself.
    ("r :: PrioSched; r -> r;", "fault 11: NoDevice"),
];

#[test]
fn texts_are_answered(rt: HostRuntime) {
    for rows in [TEXTS, FAULTS, BAD_TEXTS, ORDERS, PAIRS] {
        assert_answers(&rt, rt.alloc(), rows);
    }
}
