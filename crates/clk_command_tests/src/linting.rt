//! The warnings of trees and traces, by words.

use clk_command_fixtures::{Row, compare_rows};
use clk_packet::Fault;

const TREE: (&str, &str) = (
    "out/lint.click",
    "s :: Sender(0); q :: Queue(1); h :: Shaper(3, 2); d :: ToDevice(link); s -> q -> h -> d;",
);

const TRACE: (&str, &str) = ("out/lint.trace", "0,10\n0,20\n");

/// Trees and traces with and without warnings, and with faults.
const ROWS: &[Row] = &[
    (
        &[TREE],
        "lint out/lint.click",
        Ok(0),
        "warning: h: burst 2 is below the rate, 3\n",
        &[],
    ),
    (
        &[TREE, TRACE],
        "lint out/lint.click out/lint.trace",
        Ok(0),
        "warning: h: burst 2 is below the rate, 3
warning: q: capacity 1 is below the packets of sender 0, 2
",
        &[],
    ),
    // Without warnings nothing is written.
    (
        &[(
            "out/unlint.click",
            "s :: Sender(0); q :: Queue(2); d :: ToDevice(link); s -> q -> d;",
        )],
        "lint out/unlint.click out/lint.trace",
        Ok(0),
        "",
        &[],
    ),
    (&[], "lint missing.click", Err(Fault::Read), "", &[]),
    (
        &[TREE],
        "lint out/lint.click missing.trace",
        Err(Fault::Read),
        "",
        &[],
    ),
    // A fault of the tree is reported before the trace is opened.
    (
        &[("out/unlint.click", "q :: Que;")],
        "lint out/unlint.click missing.trace",
        Err(Fault::UnknownClass { offset: 5 }),
        "",
        &[],
    ),
    (
        &[("out/unlint.click", "")],
        "lint out/unlint.click",
        Err(Fault::NoDevice),
        "",
        &[],
    ),
    (
        &[TREE, ("out/unlint.trace", "0,10\n0\n9,10\n")],
        "lint out/lint.click out/unlint.trace",
        Err(Fault::BadTrace { row: 2 }),
        "",
        &[],
    ),
    // Of two unknown senders the least is named.
    (
        &[TREE, ("out/unlint.trace", "9,10\n0,10\n7,10\n")],
        "lint out/lint.click out/unlint.trace",
        Err(Fault::UnknownSender { sender: 7 }),
        "",
        &[],
    ),
    (
        &[TREE, ("out/unlint.trace", "")],
        "lint out/lint.click out/unlint.trace",
        Ok(0),
        "warning: h: burst 2 is below the rate, 3\n",
        &[],
    ),
];

#[test]
fn warnings_are_told(rt: HostRuntime) {
    let found = compare_rows(&rt, ROWS).expect(&rt, "ample memory and files");
    assert_eq!(rt; found, None);
}
