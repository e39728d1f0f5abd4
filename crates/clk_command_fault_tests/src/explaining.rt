//! Faults that are explained.

use clk_command::command;
use clk_command_fixtures::{AMPLE, answer, write_all};
use clk_packet::{FailingSink, Fault, FromRead};
use std::alloc::{AllocError, Global};
use std::fs;
use std::process::Abort;
use std::rt::Files;
use std::sync::Wait;
use std::thread::Threads;

const TREE: &str = "s :: Sender(0); q :: Queue(2); d :: ToDevice(link); s -> q -> d;";

/// Words, what stands on standard input, their fault, and how it is explained.
type Explained = (&'static str, &'static str, Fault, &'static str);

const OF_TREES: &[Explained] = &[
    (
        "check --explain out/unnamed.click",
        "",
        Fault::UnknownName { offset: 54 },
        "out/unnamed.click:2:9: no element has the name 'e'
    s -> q; e -> d;
            ^
expected a declaration of it
",
    ),
    (
        "check --explain -",
        "q :: Que;",
        Fault::UnknownClass { offset: 5 },
        "standard input:1:6: there is no class 'Que'
    q :: Que;
         ^
",
    ),
    (
        "--explain lint -",
        "",
        Fault::NoDevice,
        "standard input: no ToDevice is declared
expected a link, as in 'uplink :: ToDevice(eth0);'
",
    ),
    (
        "script out/unclassed.click none.script --explain",
        "",
        Fault::UnknownClass { offset: 5 },
        "out/unclassed.click:1:6: there is no class 'Que'
",
    ),
    (
        "run --explain out/unclassed.click none.trace",
        "",
        Fault::UnknownClass { offset: 5 },
        "out/unclassed.click:1:6: there is no class 'Que'
",
    ),
    (
        "live - none.trace --explain",
        "?",
        Fault::BadText { offset: 0 },
        "standard input:1:1: no word or mark begins here
    ?
    ^
expected a name
",
    ),
];

/// Scripts over a tree with one device, their wrong lines, and how these are explained.
const OF_SCRIPTS: &[(&str, u32, &str)] = &[
    (
        "send 0 10\n sned 0 10",
        2,
        "2:2: 'sned' isn't a command\n     sned 0 10\n     ^\n",
    ),
    (
        "# begin\n",
        1,
        "1:1: a script has no comments\n    # begin\n    ^\n",
    ),
    ("\n\r\n// begin", 3, "3:1: a script has no comments\n"),
    (
        "send",
        1,
        "1:5: 'send' lacks its sender\n    send\n        ^\nexpected a sender from 0 to 65535\n",
    ),
    (
        "send 0 \r\n",
        1,
        "1:8: 'send' lacks its length\n    send 0 \n           ^\nexpected a length from 1 to 65535\n",
    ),
    (
        "send 65536 10",
        1,
        "1:6: '65536' isn't a sender\n    send 65536 10\n         ^\nexpected a sender from 0 to 65535\n",
    ),
    (
        "send\t0\t0",
        1,
        "1:8: '0' isn't a length\n    send 0 0\n           ^\nexpected a length from 1 to 65535\n",
    ),
    (
        "pull 0\npull x",
        2,
        "2:6: 'x' isn't a moment\n    pull x\n         ^\nexpected a moment from 0 to 1099511627775\n",
    ),
    (
        "pull 1099511627776",
        1,
        "1:6: '1099511627776' isn't a moment\n",
    ),
    (
        "pull",
        1,
        "1:5: 'pull' lacks its moment\n    pull\n        ^\nexpected a moment from 0 to 1099511627775\n",
    ),
    (
        "pull 0 1",
        1,
        "1:8: the tree has no device '1'\n    pull 0 1\n           ^\nexpected the number of a device, from 0 in order of declaration\n",
    ),
    (
        "pull 0 -1",
        1,
        "1:8: '-1' isn't a device\n    pull 0 -1\n           ^\nexpected the number of a device, from 0 in order of declaration\n",
    ),
    (
        "pull 0 0 0",
        1,
        "1:10: unexpected '0'\n    pull 0 0 0\n             ^\nexpected the end of the line\n",
    ),
    (
        "drain",
        1,
        "1:6: 'drain' lacks its moment\n    drain\n         ^\nexpected a moment from 0 to 1099511627775\n",
    ),
    (
        "drain 0 0",
        1,
        "1:9: unexpected '0'\n    drain 0 0\n            ^\nexpected the end of the line\n",
    ),
    (
        "drain 0\n\npull 0",
        3,
        "3:1: a drain ends a script\n    pull 0\n    ^\nexpected only blank lines after it\n",
    ),
    // A carriage return that no line feed follows is part of a word.
    (
        "send 0 10\r",
        1,
        "1:10: a carriage return stands without a line feed\n    send 0 10\n             ^\nexpected a line feed at the end of each line\n",
    ),
    (
        "pull 1\rpull 2\n",
        1,
        "1:7: a carriage return stands without a line feed\n",
    ),
    (
        "\r",
        1,
        "1:1: a carriage return stands without a line feed\n",
    ),
    (
        "\u{feff}send 0 10",
        1,
        "1:1: a script has no byte order mark\n    ???send 0 10\n    ^\nexpected 'send SENDER LENGTH', 'pull MOMENT', 'pull MOMENT DEVICE' or, at the end, 'drain MOMENT'\n",
    ),
    ("drain 0\ndrain 0", 2, "2:1: a drain ends a script\n"),
    ("pull 0 007", 1, "1:8: the tree has no device '007'\n"),
];

/// Traces, their wrong records, and how these are explained.
const OF_TRACES: &[(&str, u32, &str)] = &[
    (
        "0,10\nx,10\n",
        2,
        "2:1: 'x' isn't a sender\n    x,10\n    ^\nexpected a sender from 0 to 65535\n",
    ),
    (
        "\n\n0,10\r\n\r\n0,0",
        2,
        "5:3: '0' isn't a length\n    0,0\n      ^\nexpected a length from 1 to 65535\n",
    ),
    (
        "0",
        1,
        "1:2: the record lacks its length\n    0\n     ^\nexpected a length from 1 to 65535\n",
    ),
    (
        "0,",
        1,
        "1:3: '' isn't a length\n    0,\n      ^\nexpected a length from 1 to 65535\n",
    ),
    (
        "0,10,20",
        1,
        "1:5: the record has more than two fields\n    0,10,20\n        ^\nexpected the end of the line\n",
    ),
    ("0, 10", 1, "1:3: ' 10' isn't a length\n"),
    ("65536,10", 1, "1:1: '65536' isn't a sender\n"),
    (
        "\u{feff}0,65536",
        1,
        "1:6: '65536' isn't a length\n    ???0,65536\n         ^\nexpected a length from 1 to 65535\n",
    ),
    (
        "\"0\",10\n0,10\n0,\"x\"",
        3,
        " record 3 of the trace is wrong\nexpected a sender from 0 to 65535 and a length from 1 to 65535\n",
    ),
    // A quote behind the record changes nothing.
    ("x,10\n\"0\",10", 1, "1:1: 'x' isn't a sender\n"),
    ("sender,length\n0,10", 1, "1:1: 'sender' isn't a sender\n"),
    ("0,10\r0,\r", 2, "1:8: '' isn't a length\n"),
];

/// Faults of files, of senders and of what is too large. What the system says of a file is left out.
const OF_THE_REST: &[Explained] = &[
    (
        "check --explain none.click",
        "",
        Fault::Read,
        "none.click: ",
    ),
    (
        "script --explain out/told.click out/folder",
        "",
        Fault::Read,
        "out/folder: ",
    ),
    (
        "script --explain out/told.click - --visits out/folder",
        "pull 0",
        Fault::Write,
        "out/folder: ",
    ),
    (
        "live --explain out/told.click - --record out/folder",
        "0,10",
        Fault::Write,
        "out/folder: ",
    ),
    (
        "live --explain --visits out/folder out/told.click -",
        "0,10",
        Fault::Write,
        "out/folder: ",
    ),
    (
        "script --explain out/told.click -",
        "send 0 10\n send 07 10",
        Fault::UnknownSender { sender: 7 },
        "standard input:2:7: the tree has no sender '07'
     send 07 10
          ^
expected the number of a Sender of the tree
",
    ),
    (
        "--explain",
        "send 7 10",
        Fault::UnknownSender { sender: 7 },
        "standard input:1:6: the tree has no sender '7'\n",
    ),
    (
        "run --explain out/told.click -",
        "8,10\r\n7,10\n",
        Fault::UnknownSender { sender: 7 },
        "standard input:2:1: the tree has no sender '7'\n    7,10\n    ^\n",
    ),
    (
        "lint --explain out/told.click -",
        "\"7\",10\n",
        Fault::UnknownSender { sender: 7 },
        "standard input: the tree has no Sender(7)\nexpected the number of a Sender of the tree\n",
    ),
    (
        "live --explain out/told.click - --record out/untold.script --limit 1000000",
        "",
        Fault::TooLarge,
        "the record of this run could have more than 1000000 lines\nexpected fewer packets, or a lower --limit: a record has a line for each packet, --limit lines for each device, and the drain\n",
    ),
    (
        "live --explain out/told.click - --visits - --limit 1000000",
        "",
        Fault::TooLarge,
        "the record of this run could have more than 1000000 lines\n",
    ),
    (
        "run --explain out/told.click none.trace",
        "",
        Fault::Read,
        "none.trace: ",
    ),
];

/// The files of the tests.
const FILES: &[(&str, &str)] = &[
    ("out/told.click", TREE),
    (
        "out/unnamed.click",
        "s :: Sender(0); q :: Queue; d :: ToDevice(l);\ns -> q; e -> d;\n",
    ),
    ("out/unclassed.click", "q :: Que;"),
];

#[test]
fn faults_of_trees_are_explained(rt: HostRuntime) {
    write_all(&rt, FILES).expect(&rt, "files");
    for &(words, given, fault, told) in OF_TREES {
        assert_explained(&rt, words, given, fault, told);
    }
}

#[test]
fn wrong_lines_are_explained(rt: HostRuntime) {
    write_all(&rt, FILES).expect(&rt, "files");
    let words = "script --explain out/told.click -";
    for &(script, line, told) in OF_SCRIPTS {
        assert_located(&rt, words, script, Fault::BadScript { line }, told);
    }
    // The built-in tree too has a script.
    let told = "standard input:1:1: 'x' isn't a command\n    x\n    ^\n";
    assert_explained(&rt, "--explain", "x", Fault::BadScript { line: 1 }, told);
}

#[test]
fn wrong_records_are_explained(rt: HostRuntime) {
    write_all(&rt, FILES).expect(&rt, "files");
    for &(trace, row, told) in OF_TRACES {
        for &words in &[
            "run --explain out/told.click -",
            "lint out/told.click - --explain",
        ] {
            assert_located(&rt, words, trace, Fault::BadTrace { row }, told);
        }
    }
}

#[test]
fn other_faults_are_explained(rt: HostRuntime) {
    fs::create_dir_all(&rt, "out/folder").expect(&rt, "a folder");
    write_all(&rt, FILES).expect(&rt, "files");
    for &(words, given, fault, told) in OF_THE_REST {
        let answered = answer(&rt, words, given.as_bytes(), AMPLE, AMPLE).expect(
            &rt,
            "ample memory",
        );
        assert_eq!(rt; answered.outcome, Err(fault), "at {words}");
        assert!(rt; answered.told.starts_with(told.as_bytes()), "at {words}");
    }
}

// What is too large is told, be it the tree, the script or the trace, also if it is on standard input.
#[test]
fn large_trees_are_explained(rt: HostRuntime) {
    let told =
        "standard input: the text has more than 1048576 bytes\nexpected at most 1048576 bytes\n";
    let text = many(rt.alloc(), " ", 1_048_577).expect(&rt, "memory");
    for &words in &["check --explain -", "script --explain - none.script"] {
        assert_explained(&rt, words, &text, Fault::TooLarge, told);
    }
}

#[test]
fn large_scripts_are_explained(rt: HostRuntime) {
    let told =
        "standard input: the script has more than 1000000 lines\nexpected no more than that\n";
    let text = many(rt.alloc(), "\n", 1_000_001).expect(&rt, "memory");
    assert_explained(&rt, "--explain", &text, Fault::TooLarge, told);
}

#[test]
fn large_traces_are_explained(rt: HostRuntime) {
    write_all(&rt, FILES).expect(&rt, "files");
    let told = "standard input: the trace has more than 1000000 records\n";
    let text = many(rt.alloc(), "0,1\n", 1_000_001).expect(&rt, "memory");
    let words = "live --explain out/told.click - --visits -";
    assert_explained(&rt, words, &text, Fault::TooLarge, told);
}

// A reader may keep nothing. Then all limits are told that may have been passed.
#[test]
fn large_texts_that_are_not_kept_are_explained(rt: HostRuntime) {
    write_all(&rt, FILES).expect(&rt, "files");
    let lines = many(rt.alloc(), "\n", 1_000_001).expect(&rt, "memory");
    let told = told_unkept(&rt, &["--explain"], lines.as_bytes()).expect(&rt, "memory");
    assert_eq!(rt;
        told.as_slice(),
        "standard input: the script has more than 33554432 bytes, or more than 1000000 lines\nexpected no more than that\n".as_bytes()
    );
    let records = many(rt.alloc(), "0,1\n", 1_000_001).expect(&rt, "memory");
    let words = ["live", "--explain", "out/told.click", "-", "--visits", "-"];
    let told = told_unkept(&rt, &words, records.as_bytes()).expect(&rt, "memory");
    assert_eq!(rt;
        told.as_slice(),
        "the tree is too large, or the trace has more than 33554432 bytes, or more than 1000000 records, or the record of its run could have more than 1000000 lines\nexpected no more than that\n".as_bytes()
    );
}

/// What words tell of this text, which is too large, by a reader that keeps nothing. Fault 1 if an allocation fails.
fn told_unkept(
    rt: &(impl Files + AllocGlobal + Threads + Wait + Sync + Abort),
    words: &[&str],
    text: &[u8],
) -> Result<Vec<u8>, Fault> {
    let alloc = rt.alloc();
    let mut list = Vec::new(alloc);
    for word in words {
        list.push(String::from_str(alloc, word)?)?;
    }
    let mut reader = FromRead::new(text);
    let mut writer = FailingSink::new(Vec::new(alloc));
    let mut errors = FailingSink::new(vec![in alloc; 0; AMPLE]?);
    let outcome = command(rt, rt, list, &mut reader, &mut writer, &mut errors);
    assert_eq!(rt; outcome, Err(Fault::TooLarge));
    Ok(errors.taken().to_vec(alloc)?)
}

/// So many times a text.
fn many(alloc: Global, text: &str, times: usize) -> Result<String, AllocError> {
    let mut all = String::with_capacity(alloc, text.len().saturating_mul(times))?;
    for _ in 0..times {
        all.push_str(text)?;
    }
    Ok(all)
}

// Standard output that fails is told by its name.
#[test]
fn failed_writes_are_explained(rt: HostRuntime) {
    write_all(&rt, FILES).expect(&rt, "files");
    let words = "check --explain out/told.click";
    let answered = answer(&rt, words, b"", 0, AMPLE).expect(&rt, "ample memory");
    assert_eq!(rt; answered.outcome, Err(Fault::Write));
    assert_eq!(rt;
        answered.told.as_slice(),
        b"standard output: can't be written\n".as_slice()
    );
    let answered = answer(&rt, words, b"", 0, 5).expect(&rt, "ample memory");
    assert_eq!(rt; answered.outcome, Err(Fault::Write));
    assert_eq!(rt; answered.told.as_slice(), b"stand".as_slice());
}

// What the explanation goes to may fail anywhere. The fault stays, and nothing else is written.
#[test]
fn an_explanation_may_be_cut_off(rt: HostRuntime) {
    write_all(&rt, FILES).expect(&rt, "files");
    let words = "check --explain out/unclassed.click";
    for room in 0..100 {
        let answered = answer(&rt, words, b"", AMPLE, room).expect(&rt, "ample memory");
        assert_eq!(rt; answered.outcome, Err(Fault::UnknownClass { offset: 5 }));
        assert_eq!(rt; answered.told.len(), room);
        assert!(rt; answered.written.is_empty());
    }
}

/// Fails unless words have this fault, and what is wrong on standard input is explained so.
fn assert_located(
    rt: &(impl Files + AllocGlobal + Threads + Wait + Sync + Abort),
    words: &str,
    given: &str,
    fault: Fault,
    told: &str,
) {
    let told = format!(in rt.alloc(); "standard input:{told}").expect(rt, "ample memory");
    assert_explained(rt, words, given, fault, &told);
}

/// Fails unless words have a fault, write nothing else, and explain it in words that begin so.
fn assert_explained(
    rt: &(impl Files + AllocGlobal + Threads + Wait + Sync + Abort),
    words: &str,
    given: &str,
    fault: Fault,
    told: &str,
) {
    let answered = answer(rt, words, given.as_bytes(), AMPLE, AMPLE).expect(rt, "ample memory");
    assert_eq!(rt; answered.outcome, Err(fault), "at {words}");
    assert!(rt; answered.written.is_empty(), "at {words}");
    let all = answered.told.as_slice();
    let front = all.get(..told.len()).unwrap_or(all);
    assert_eq!(rt; front, told.as_bytes(), "at {words}");
}
