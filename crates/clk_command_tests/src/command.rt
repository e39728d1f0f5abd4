//! The program by its words.

use crate::examples;
use clk_command_fixtures::{
    AMPLE, Row, Said, answer, compare, compare_rows, input, is_said, write, write_all,
};
use clk_packet::Fault;

/// A tree of a sender and a queue.
const ALONE: (&str, &str) = (
    "out/alone.click",
    "q :: Queue; d :: ToDevice(link); s :: Sender(0); s -> q -> d;",
);

/// A tree with an unknown class.
const BAD: (&str, &str) = ("out/bad.click", "q :: Que;");

const BAD_FAULT: Fault = Fault::UnknownClass { offset: 5 };

/// Trees that are checked, and scripts.
const ROWS: &[Row] = &[
    (
        &[
            (
                "out/evicting.click",
                "s :: Sender(3); q :: FrontDropQueue(1); d :: ToDevice(link); s -> q -> d;",
            ),
            ("out/evicting.script", "send 3 10\nsend 3 20\npull 0\n"),
        ],
        "script out/evicting.click out/evicting.script",
        Ok(0),
        "3#0 10 accepted\n3#1 20 accepted evicted 3#0\npull 0: 3#1 20\n",
        &[],
    ),
    // A missing file can't be read, and neither can a folder.
    (&[], "check missing.click", Err(Fault::Read), "", &[]),
    (&[], "check out/folder", Err(Fault::Read), "", &[]),
    (
        &[],
        "script missing.click missing.script",
        Err(Fault::Read),
        "",
        &[],
    ),
    (
        &[ALONE],
        "script out/alone.click missing.script",
        Err(Fault::Read),
        "",
        &[],
    ),
    (
        &[ALONE],
        "script out/alone.click out/folder",
        Err(Fault::Read),
        "",
        &[],
    ),
    // A fault of the tree is reported before the script is opened.
    (&[BAD], "check out/bad.click", Err(BAD_FAULT), "", &[]),
    (
        &[("out/empty.click", "")],
        "check out/empty.click",
        Err(Fault::NoDevice),
        "",
        &[],
    ),
    (
        &[BAD],
        "script out/bad.click missing.script",
        Err(BAD_FAULT),
        "",
        &[],
    ),
];

#[test]
fn words_are_answered(rt: HostRuntime) {
    let found = compare_rows(&rt, ROWS).expect(&rt, "ample memory and files");
    assert_eq!(rt; found, None);
}

#[test]
fn examples_are_answered(rt: HostRuntime) {
    let found = compare_rows(&rt, &examples::ROWS).expect(&rt, "ample memory and files");
    assert_eq!(rt; found, None);
}

// Without its visits an example writes the same text.
#[test]
fn examples_are_answered_without_visits(rt: HostRuntime) {
    for (files, words, outcome, written, _) in examples::ROWS {
        write_all(&rt, files).expect(&rt, "files");
        let words = words.trim_end_matches(" --visits out/example.csv");
        let found = compare(&rt, words, input(), outcome, written.as_bytes());
        assert_eq!(rt; found.expect(&rt, "ample memory"), None, "at {words}");
    }
}

const SAID: &[Said] = &[
    ("frob", 2, "error: ", "unrecognized subcommand 'frob'"),
    ("check", 2, "error: ", "<TREE>"),
    ("check a b", 2, "error: ", "unexpected argument 'b' found"),
    (
        "check --quick a",
        2,
        "error: ",
        "unexpected argument '--quick' found",
    ),
    ("lint", 2, "error: ", "<TREE>"),
    (
        "lint a b c",
        2,
        "error: ",
        "Usage: clickpull lint [OPTIONS] <TREE> [TRACE]",
    ),
    (
        "lint a --visits b",
        2,
        "error: ",
        "unexpected argument '--visits' found",
    ),
    ("script", 2, "error: ", "<TREE>"),
    ("script a", 2, "error: ", "<SCRIPT>"),
    (
        "script a b c",
        2,
        "error: ",
        "Usage: clickpull script [OPTIONS] <TREE> <SCRIPT>",
    ),
    ("script a b --visits", 2, "error: ", "--visits <FILE>"),
    (
        "check a --visits b",
        2,
        "error: ",
        "unexpected argument '--visits' found",
    ),
    ("run", 2, "error: ", "<TREE>"),
    ("run a", 2, "error: ", "<TRACE>"),
    (
        "run a b c",
        2,
        "error: ",
        "Usage: clickpull run [OPTIONS] <TREE> <TRACE>",
    ),
    ("run a b --step 0", 2, "error: ", "0 is not in 1..=1000"),
    (
        "run a b --step 1001",
        2,
        "error: ",
        "1001 is not in 1..=1000",
    ),
    (
        "run a b --step x",
        2,
        "error: ",
        "invalid digit found in string",
    ),
    ("run a b --limit 0", 2, "error: ", "0 is not in 1..=1000000"),
    (
        "run a b --limit 1000001",
        2,
        "error: ",
        "1000001 is not in 1..=1000000",
    ),
    ("run a b --limit", 2, "error: ", "--limit <N>"),
    ("help frob", 2, "error: ", "unrecognized subcommand 'frob'"),
    ("--help", 0, "", "Usage: clickpull [OPTIONS] [COMMAND]"),
    ("-h", 0, "", "clickpull script uplink.click morning.script"),
    ("help", 0, "", "Exit status:"),
    ("--version", 0, "", "clickpull 0.1.0\n"),
    ("-V", 0, "", "clickpull 0.1.0\n"),
    (
        "help check",
        0,
        "",
        "Usage: clickpull check [OPTIONS] <TREE>",
    ),
    (
        "check --help",
        0,
        "",
        "clickpull check uplink.click > uplink.canonical.click",
    ),
    ("check -h", 0, "", "Usage: clickpull check [OPTIONS] <TREE>"),
    (
        "lint --help",
        0,
        "",
        "clickpull lint uplink.click morning.trace",
    ),
    (
        "lint -h",
        0,
        "",
        "Usage: clickpull lint [OPTIONS] <TREE> [TRACE]",
    ),
    ("help lint", 0, "", "a queue that nobody sends to"),
    (
        "script --help",
        0,
        "",
        "Usage: clickpull script [OPTIONS] <TREE> <SCRIPT>",
    ),
    ("help script", 0, "", "send S L"),
    (
        "run --help",
        0,
        "",
        "Usage: clickpull run [OPTIONS] <TREE> <TRACE>",
    ),
    ("help run", 0, "", "[default: 1000]"),
    ("help script", 0, "", "pull M D"),
];

#[test]
fn wrong_words_and_help_are_told(rt: HostRuntime) {
    for &(words, status, begin, part) in SAID {
        let is_so = is_said(&rt, words, status, begin, part);
        assert!(rt; is_so.expect(&rt, "ample memory"), "at {words}");
    }
}

// Words, a script on standard input, how many bytes standard output and standard error take, the outcome, and how many they took.
#[test]
fn what_takes_the_text_may_fail(rt: HostRuntime) {
    for (words, script, room, errors_room, outcome, taken) in [
        ("frob", input(), AMPLE, 7, Err(Fault::Write), 7),
        ("--version", input(), 7, AMPLE, Err(Fault::Write), 7),
        ("", input(), 7, AMPLE, Err(Fault::Write), 7),
        // An empty script writes nothing.
        ("", b"".as_slice(), AMPLE, AMPLE, Ok(0), 0),
    ] {
        let answered = answer(&rt, words, script, room, errors_room).expect(&rt, "ample memory");
        assert_eq!(rt; answered.outcome, outcome, "at {words}");
        assert_eq!(rt;
            answered.written.len() + answered.told.len(),
            taken,
            "at {words}"
        );
    }
}

#[test]
fn a_tree_text_has_at_most_1048576_bytes(rt: HostRuntime) {
    for &(blanks, fault) in &[(1_048_576, Fault::NoDevice), (1_048_577, Fault::TooLarge)] {
        let text = vec![in rt.alloc(); b' '; blanks].expect(&rt, "ample memory");
        write(&rt, "out/long.click", text).expect(&rt, "a file");
        let found = compare(&rt, "check out/long.click", input(), Err(fault), b"");
        assert_eq!(rt;
            found.expect(&rt, "ample memory"),
            None,
            "check of {blanks} bytes"
        );
    }
}
