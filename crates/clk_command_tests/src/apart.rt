//! Which files a task may have: standard input stands for one input, and no file is overwritten that is read, or written for something
//! else. Visits may go to standard output.

use clk_command_fixtures::{
    AMPLE, answer, compare, compare_files, input, is_said, write, write_all,
};
use clk_packet::Fault;
use std::fs;
use std::os::unix::fs::symlink;

const TREE: &str = "s :: Sender(0); q :: Queue(2); d :: ToDevice(link); s -> q -> d;";

const SCRIPT: &str = "send 0 10\npull 0\n";

const TRACE: &str = "0,10\n";

/// What the files have before, and after.
const FILES: &[(&str, &str)] = &[
    ("out/kept.click", TREE),
    ("out/kept.script", SCRIPT),
    ("out/kept.trace", TRACE),
];

const LEFT: &[(&str, Option<&str>)] = &[
    ("out/kept.click", Some(TREE)),
    ("out/kept.script", Some(SCRIPT)),
    ("out/kept.trace", Some(TRACE)),
    ("out/unmade.script", None),
    ("out/unmade.csv", None),
];

/// Words that name one file twice, and how they name it where it would be written. The links lead to the tree, and one to no file.
const TWICE: &[(&str, &str)] = &[
    (
        "script out/kept.click out/kept.script --visits out/kept.click",
        "out/kept.click",
    ),
    (
        "script out/kept.click out/kept.script --visits out/kept.script",
        "out/kept.script",
    ),
    (
        "script out/kept.click out/kept.script --visits out/../out/kept.script",
        "out/../out/kept.script",
    ),
    (
        "script out/kept.click out/kept.script --visits out/soft.click",
        "out/soft.click",
    ),
    (
        "run out/kept.click out/kept.trace --visits out/hard.click",
        "out/hard.click",
    ),
    (
        "run out/kept.click out/kept.trace --visits out/kept.trace",
        "out/kept.trace",
    ),
    (
        "live out/kept.click out/kept.trace --record out/kept.trace",
        "out/kept.trace",
    ),
    (
        "live out/kept.click out/kept.trace --record out/unmade.script --visits out/kept.click",
        "out/kept.click",
    ),
    (
        "live out/kept.click out/kept.trace --record out/unmade.csv --visits out/unmade.csv",
        "out/unmade.csv",
    ),
    (
        "script none.click none.script --visits none.script",
        "none.script",
    ),
    (
        "live out/kept.click out/kept.trace --record out/unmade.csv --visits ./out/unmade.csv",
        "./out/unmade.csv",
    ),
    (
        "live out/kept.click out/kept.trace --record unmade.csv --visits out/../unmade.csv",
        "out/../unmade.csv",
    ),
    (
        "live out/kept.click out/kept.trace --record out/open.csv --visits out/unmade.csv",
        "out/unmade.csv",
    ),
    (
        "live out/kept.click out/kept.trace --record out/unmade.csv --visits out/open.csv",
        "out/open.csv",
    ),
];

#[test]
fn no_file_that_is_named_twice_is_overwritten(rt: HostRuntime) {
    write_all(&rt, FILES).expect(&rt, "files");
    let _ = fs::remove_file(&rt, "out/hard.click");
    let _ = fs::remove_file(&rt, "out/soft.click");
    let _ = fs::remove_file(&rt, "out/open.csv");
    fs::hard_link(&rt, "out/kept.click", "out/hard.click").expect(&rt, "a link");
    symlink(&rt, "kept.click", "out/soft.click").expect(&rt, "a link");
    symlink(&rt, "unmade.csv", "out/open.csv").expect(&rt, "a link");
    for &(words, path) in TWICE {
        let begin = "error: what is read, or written";
        assert!(rt;
            is_said(&rt, words, 2, begin, path).expect(&rt, "ample memory"),
            "at {words}"
        );
        assert_eq!(rt; compare_files(&rt, LEFT), None, "at {words}");
    }
}

// A record is a script, which is to be read alone.
#[test]
fn a_record_is_not_written_to_standard_output(rt: HostRuntime) {
    write_all(&rt, FILES).expect(&rt, "files");
    let words = "live out/kept.click out/kept.trace --record - --visits -";
    let begin = "error: a record can't be";
    let is_so = is_said(&rt, words, 2, begin, "standard output\n");
    assert!(rt; is_so.expect(&rt, "ample memory"));
    assert_eq!(rt; compare_files(&rt, LEFT), None);
}

// Another file is overwritten, and a device loses nothing.
#[test]
fn other_files_are_overwritten(rt: HostRuntime) {
    write_all(&rt, FILES).expect(&rt, "files");
    for &words in &[
        "script out/kept.click out/kept.script --visits out/other.csv",
        "live out/kept.click out/kept.trace --record out/other.csv --visits /dev/null",
        "live out/kept.click out/kept.trace --record /dev/null --visits out/other.csv",
    ] {
        write(&rt, "out/other.csv", "old").expect(&rt, "a file");
        let answered = answer(&rt, words, input(), AMPLE, AMPLE).expect(&rt, "ample memory");
        assert_eq!(rt; answered.outcome, Ok(0), "at {words}");
        let new = fs::read(&rt, "out/other.csv").expect(&rt, "a file");
        assert!(rt; new.as_slice() != b"old".as_slice(), "at {words}");
    }
}

// A link that leads to no file yet is followed, and `-` is no file that it could lead to.
#[test]
fn a_link_to_no_file_is_followed(rt: HostRuntime) {
    write_all(&rt, FILES).expect(&rt, "files");
    let _ = fs::remove_file(&rt, "out/follows.csv");
    symlink(&rt, "followed.csv", "out/follows.csv").expect(&rt, "a link");
    for &(words, input) in &[
        (
            "live out/kept.click out/kept.trace --record out/follows.csv",
            "",
        ),
        ("live - out/kept.trace --record out/follows.csv", TREE),
        ("run out/kept.click - --visits out/follows.csv", TRACE),
    ] {
        let _ = fs::remove_file(&rt, "out/followed.csv");
        let reader = input.as_bytes();
        let answered = answer(&rt, words, reader, AMPLE, AMPLE).expect(&rt, "ample memory");
        assert_eq!(rt; answered.outcome, Ok(0), "at {words}");
        let made = fs::read(&rt, "out/followed.csv").expect(&rt, "a file");
        assert!(rt; !made.is_empty(), "at {words}");
    }
}

// A device may have two paths, and there may be files of one name in two folders, one of which isn't there.
#[test]
fn other_paths_are_taken(rt: HostRuntime) {
    write_all(&rt, FILES).expect(&rt, "files");
    for &(words, outcome) in &[
        ("--record /dev/null --visits /dev/../dev/null", Ok(0)),
        (
            "--record none/unmade.csv --visits out/unmade.csv",
            Err(Fault::Write),
        ),
    ] {
        let words = format!(in rt.alloc(); "live out/kept.click out/kept.trace {words}");
        let words = words.expect(&rt, "ample memory");
        let answered = answer(&rt, &words, input(), AMPLE, AMPLE).expect(&rt, "ample memory");
        assert_eq!(rt; answered.outcome, outcome, "at {words}");
        assert_eq!(rt; compare_files(&rt, LEFT), None, "at {words}");
    }
}

// What the message goes to may fail in each part of it.
#[test]
fn what_takes_the_message_may_fail(rt: HostRuntime) {
    let words = "script abc d --visits abc";
    for &room in &[0, 7, 73, 76] {
        let answered = answer(&rt, words, input(), AMPLE, room).expect(&rt, "ample memory");
        assert_eq!(rt; answered.outcome, Err(Fault::Write), "at {room}");
        assert_eq!(rt; answered.told.len(), room);
    }
}

const ANSWER: &str = "0#0 10 accepted\npull 0: 0#0 10\n";

/// The answer, and the visits after it.
const FOLLOWED: &str = "\
0#0 10 accepted
pull 0: 0#0 10
pull,node,input,fresh,sender,number,length,passed,moment
0,0,0,1,0,0,10,1,0
";

const REPORT: &str = "sender 0: sent 1 10, accepted 1 10, refused 0 0, evicted 0 0, emitted 1 10\n";

const HALTING: &str =
    "s :: Sender(0); q :: Queue(2); h :: Shaper(2, 1); d :: ToDevice(link); s -> q -> h -> d;";

const WARNINGS: &str = "warning: h: burst 1 is below the rate, 2\n";

const SMALL: &str = "warning: q: capacity 2 is below the packets of sender 0, 3\n";

const CANONICAL: &str = "\
s :: Sender(0);
q :: Queue(2);
d :: ToDevice(link);
s [0] -> [0] q;
q [0] -> [0] d;
";

// Words, what stands on standard input, and what they return and write. A path that leads to a file named `-` is no standard input.
#[test]
fn standard_input_stands_for_one_input(rt: HostRuntime) {
    write_all(&rt, FILES).expect(&rt, "files");
    for &(words, input, outcome, written) in &[
        ("check -", TREE, Ok(0), CANONICAL),
        ("lint -", HALTING, Ok(0), WARNINGS),
        ("lint - out/kept.trace", HALTING, Ok(0), WARNINGS),
        ("lint out/kept.click -", "0,1\n0,1\n0,1\n", Ok(0), SMALL),
        ("script - out/kept.script", TREE, Ok(0), ANSWER),
        ("script out/kept.click -", SCRIPT, Ok(0), ANSWER),
        (
            "script out/kept.click - --visits -",
            SCRIPT,
            Ok(0),
            FOLLOWED,
        ),
        ("run - out/kept.trace", TREE, Ok(0), REPORT),
        ("run out/kept.click -", TRACE, Ok(0), REPORT),
        ("live - out/kept.trace", TREE, Ok(0), REPORT),
        ("live out/kept.click -", TRACE, Ok(0), REPORT),
        ("check ./-", TREE, Err(Fault::Read), ""),
        ("check -", "", Err(Fault::NoDevice), ""),
        (
            "script out/kept.click -",
            "send 0 10\nsend 0\n",
            Err(Fault::BadScript { line: 2 }),
            "",
        ),
        (
            "run out/kept.click -",
            "1,10\n",
            Err(Fault::UnknownSender { sender: 1 }),
            "",
        ),
    ] {
        let found = compare(&rt, words, input.as_bytes(), outcome, written.as_bytes());
        assert_eq!(rt; found.expect(&rt, "ample memory"), None, "at {words}");
    }
}

#[test]
fn standard_input_is_not_two_inputs(rt: HostRuntime) {
    for &words in &[
        "lint - -",
        "script - -",
        "run - -",
        "live --record out/unmade.script - -",
    ] {
        let begin = "error: '-' stands for standard input";
        let is_so = is_said(&rt, words, 2, begin, "two inputs\n");
        assert!(rt; is_so.expect(&rt, "ample memory"), "at {words}");
    }
}
