//! Whole explanations of faults.

use clk_explain::{MAX_EXPLANATION, MAX_WORDS, Words, explain, point_out, tell};
use clk_packet::Fault;
use clk_tree::Plan;
use std::alloc::Global;
use std::process::Abort;

/// Texts that break the grammar, with the explanations of their faults.
const BAD_TEXTS: &[(&str, &str)] = &[
    (
        "q :: Queue(5)
d :: ToDevice(x);",
        "2:1: 'd' can't stand here
    d :: ToDevice(x);
    ^
expected ';'
",
    ),
    // The fault is at the end of the text.
    (
        "q :: Queue;
q ->",
        "2:5: the text ends inside a statement
    q ->
        ^
expected a name or '['
",
    ),
    // A tab before the fault takes one column, and the line ends with a carriage return.
    (
        "q :: Queue;\r
\tq : Queue;\r
",
        "2:4: no word or mark begins here
     q : Queue;
       ^
expected '::', ',', '->' or '['
",
    ),
    (
        "q :: Queue; /* open
",
        "1:13: a comment isn't closed
    q :: Queue; /* open
                ^
expected '*/'
",
    ),
    (
        "\u{feff}q :: Queue;",
        "1:1: the text begins with a byte order mark
    ???q :: Queue;
    ^
expected a text without one
",
    ),
    // A number is no name, and a word that begins with a digit is no number.
    (
        "a -> 9b;",
        "1:6: '9b' can't stand here
    a -> 9b;
         ^
expected a name or '['
",
    ),
    (
        "a [1x] -> b;",
        "1:4: '1x' can't stand here
    a [1x] -> b;
       ^
expected a number
",
    ),
    // A comma is missing. Before the value of a keyword stands a name.
    (
        "h :: Shaper(1 3);",
        "1:15: '3' can't stand here
    h :: Shaper(1 3);
                  ^
expected ',' or ')'
",
    ),
    // Of a long line 120 bytes are shown, 80 of them before the fault. Of a long word 40 bytes are quoted.
    (
        "qqqqqqqqqqqqqqqqqqqqqqqqqqqqqqqqqqqqqqqqqqqqqqqqqqqqqqqqqqqqqqqqqqqqqqqqqqqqqqqqqqqqqqqqqqqqqqqqqqqq rrrrrrrrrrrrrrrrrrrrrrrrrrrrrrrrrrrrrrrrrrrrrrrrrr",
        "1:102: 'rrrrrrrrrrrrrrrrrrrrrrrrrrrrrrrrrrrrrrrr..' can't stand here
    qqqqqqqqqqqqqqqqqqqqqqqqqqqqqqqqqqqqqqqqqqqqqqqqqqqqqqqqqqqqqqqqqqqqqqqqqqqqqqq rrrrrrrrrrrrrrrrrrrrrrrrrrrrrrrrrrrrrrrr
                                                                                    ^
expected '::', ',', '->' or '['
",
    ),
    // A byte that is no ASCII is shown as a question mark.
    (
        "q :: \u{e9};",
        "1:6: no word or mark begins here
    q :: ??;
         ^
expected a class
",
    ),
];

/// Texts with a feature of Click that is left out.
const LEFT_OUT: &[(&str, &str)] = &[
    (
        "elementclass Pair { a -> b }",
        "1:14: Click's compound elements (elementclass) are left out here
    elementclass Pair { a -> b }
                 ^
expected each element by itself
",
    ),
    (
        "pair :: { a -> b };",
        "1:9: Click's compound elements (elementclass) are left out here
    pair :: { a -> b };
            ^
expected each element by itself
",
    ),
    (
        "require(package \"x\");",
        "1:8: Click's 'require' and 'define' are left out here
    require(package \"x\");
           ^
expected a declaration or a chain
",
    ),
    (
        "s -> Queue(5) -> d;",
        "1:11: Click's inline elements are left out here
    s -> Queue(5) -> d;
              ^
expected 'NAME :: CLASS(..);' before, and NAME in the chain
",
    ),
    (
        "s -> q :: Queue -> d;",
        "1:8: Click's inline elements are left out here
    s -> q :: Queue -> d;
           ^
expected 'NAME :: CLASS(..);' before, and NAME in the chain
",
    ),
    (
        "q :: Queue -> d;",
        "1:12: Click's chains that begin with a declaration are left out here
    q :: Queue -> d;
               ^
expected ';' here, and the name at the front of a chain
",
    ),
    (
        "q :: Queue(CAPACITY 5);",
        "1:21: Click's keyword arguments are left out here
    q :: Queue(CAPACITY 5);
                        ^
expected ',' or ')': the values alone, in their order
",
    ),
    (
        "d :: ToDevice(\"eth0\");",
        "1:15: Click's quoted arguments are left out here
    d :: ToDevice(\"eth0\");
                  ^
expected a word of letters, digits and underscores
",
    ),
];

/// Texts with another fault, and their explanations.
const FAULTS: &[(&str, &str)] = &[
    (
        "q :: Que;",
        "1:6: there is no class 'Que'
    q :: Que;
         ^
expected Sender, Queue, FrontDropQueue, PrioSched, RoundRobinSched, DRRSched, StrideSched, Shaper or ToDevice
",
    ),
    (
        "s, t :: Sender(0);",
        "1:9: Sender 0 has more than one name
    s, t :: Sender(0);
            ^
expected a number from 0 to 65535 that no other Sender has, and one name
",
    ),
    // The word Sender stands elsewhere too, and with another number.
    (
        "Sender :: Queue; d :: ToDevice(Sender);
s :: Sender(1); t :: Sender(7); u :: Sender(07);",
        "2:38: Sender 7 is declared twice; first at 2:22
    s :: Sender(1); t :: Sender(7); u :: Sender(07);
                                         ^
expected a number from 0 to 65535 that no other Sender has, and one name
",
    ),
    (
        "s :: Sender(0, 0);",
        "1:6: an argument of 'Sender' is wrong
    s :: Sender(0, 0);
         ^
expected a number from 0 to 65535 that no other Sender has, and one name
",
    ),
    (
        "q :: FrontDropQueue(0);",
        "1:6: an argument of 'FrontDropQueue' is wrong
    q :: FrontDropQueue(0);
         ^
expected no argument, or a capacity in packets, from 1 to 1000000
",
    ),
    (
        "p :: PrioSched(1);",
        "1:6: an argument of 'PrioSched' is wrong
    p :: PrioSched(1);
         ^
expected no argument
",
    ),
    (
        "x :: DRRSched(1, 0);",
        "1:6: an argument of 'DRRSched' is wrong
    x :: DRRSched(1, 0);
         ^
expected no argument, or a quantum in bytes for all inputs or for each, from 1 to 1000000
",
    ),
    (
        "x :: StrideSched;",
        "1:6: 'StrideSched' has no argument
    x :: StrideSched;
         ^
expected the tickets of each input, from 1 to 32768
",
    ),
    (
        "x :: Shaper(1, 2, 3);",
        "1:6: an argument of 'Shaper' is wrong
    x :: Shaper(1, 2, 3);
         ^
expected a rate in packets a tick, and maybe a burst in packets, from 1 to 1000000
",
    ),
    (
        "d :: ToDevice();",
        "1:6: 'ToDevice' has no argument
    d :: ToDevice();
         ^
expected one word for the link
",
    ),
    // The first declaration, and neither a chain nor an argument of the name.
    (
        "q -> d; d :: ToDevice(q);
p, q :: Queue;
q :: PrioSched;",
        "3:1: the name 'q' is declared twice; first at 2:4
    q :: PrioSched;
    ^
expected a name of its own for each element
",
    ),
    (
        "q :: Queue;
q -> d;",
        "2:6: no element has the name 'd'
    q -> d;
         ^
expected a declaration of it
",
    ),
    (
        "s :: Sender(0);
s -> Queue;",
        "2:6: no element has the name 'Queue'
    s -> Queue;
         ^
expected the name of an element: Click's elements without a name are left out here
",
    ),
    (
        "s :: Sender(0); q :: Queue; d :: ToDevice(x);
s -> [1] q -> d;",
        "2:10: 'q' doesn't have the port that it has here
    s -> [1] q -> d;
             ^
expected input 0 and output 0 of a queue
",
    ),
    (
        "q :: Queue; x :: DRRSched(1, 2); d :: ToDevice(l); q -> [2] x -> d;",
        "1:61: 'x' doesn't have the port that it has here
    q :: Queue; x :: DRRSched(1, 2); d :: ToDevice(l); q -> [2] x -> d;
                                                                ^
expected output 0, or an input from 0 to 1
",
    ),
    (
        "q :: Queue; x :: StrideSched(5); d :: ToDevice(l); q -> [1] x -> d;",
        "1:61: 'x' doesn't have the port that it has here
    q :: Queue; x :: StrideSched(5); d :: ToDevice(l); q -> [1] x -> d;
                                                                ^
expected output 0, or an input from 0 to 0
",
    ),
    (
        "q :: Queue; x :: DRRSched(5); d :: ToDevice(l); q -> x [1] -> d;",
        "1:54: 'x' doesn't have the port that it has here
    q :: Queue; x :: DRRSched(5); d :: ToDevice(l); q -> x [1] -> d;
                                                         ^
expected output 0, or an input from 0 to 63
",
    ),
    (
        "s :: Sender(0); q :: Queue; p :: PrioSched; d :: ToDevice(x);
s -> q -> p -> d;
q -> [1] p;",
        "3:1: the output of 'q' is connected twice; first at 2:6
    q -> [1] p;
    ^
expected one connection of each output, and of each input that is pulled
",
    ),
    // A queue has many Senders, so it is the output that is connected twice.
    (
        "s :: Sender(0); t :: Sender(1); q :: Queue; d :: ToDevice(x);
s -> q -> d;
t -> q -> d;",
        "3:6: the output of 'q' is connected twice; first at 2:6
    t -> q -> d;
         ^
expected one connection of each output, and of each input that is pulled
",
    ),
    (
        "a, b :: Queue; p :: PrioSched; d :: ToDevice(x);
a -> [1] p -> d;
b [0] -> [01] p;",
        "3:15: input 1 of 'p' is connected twice; first at 2:10
    b [0] -> [01] p;
                  ^
expected one connection of each output, and of each input that is pulled
",
    ),
    (
        "s :: Sender(0); q :: Queue; d :: ToDevice(x);
q -> d;",
        "1:1: the output of 's' isn't connected
    s :: Sender(0); q :: Queue; d :: ToDevice(x);
    ^
expected a connection of each output, and of each input that is pulled
",
    ),
    (
        "q :: Queue; p :: PrioSched; d :: ToDevice(x);
q -> [1] p -> d;",
        "1:13: input 0 of 'p' isn't connected
    q :: Queue; p :: PrioSched; d :: ToDevice(x);
                ^
expected a connection of each output, and of each input that is pulled
",
    ),
    (
        "s :: Sender(0); d :: ToDevice(x);
s -> [0] d;",
        "2:1: the output of 's' pushes, and leads to an input that is pulled, of 'd'
    s -> [0] d;
    ^
expected a Queue or a FrontDropQueue after a Sender
",
    ),
    (
        "p, q :: Queue; d :: ToDevice(x);
p -> q -> d;",
        "2:1: the output of 'p' is pulled, and leads to an input that is pushed, of 'q'
    p -> q -> d;
    ^
expected a scheduler, a Shaper or a ToDevice
",
    ),
    (
        " // no link
",
        "no ToDevice is declared
expected a link, as in 'uplink :: ToDevice(eth0);'
",
    ),
    (
        "q :: Queue; d :: ToDevice(x);
r :: RoundRobinSched;
q -> d; r -> r;",
        "2:1: from 'r' the outputs lead to no ToDevice
    r :: RoundRobinSched;
    ^
expected a chain from each scheduler and Shaper to a ToDevice
",
    ),
];

/// Faults that no text above has, with a text and their explanations over it.
const ANY: &[(&str, Fault, &str)] = &[
    (
        "",
        Fault::Memory,
        "an allocation failed
expected more memory
",
    ),
    // An empty text, and an offset that no text has.
    (
        "",
        Fault::BadText { offset: 0 },
        "1:1: the text ends inside a statement
    
    ^
expected a name
",
    ),
    (
        "q\n\n",
        Fault::UnknownName { offset: 4294967295 },
        "3:1: no element has the name ''
    
    ^
expected a declaration of it
",
    ),
    // The fault is at a line feed, which ends its line, and behind one.
    (
        "a\nb",
        Fault::UnknownName { offset: 1 },
        "1:2: no element has the name 'b'
    a
     ^
expected a declaration of it
",
    ),
    (
        "a\nb",
        Fault::UnknownName { offset: 2 },
        "2:1: no element has the name 'b'
    b
    ^
expected a declaration of it
",
    ),
    (
        "d :: ToDevice(x);
e :: ToDevice(x);",
        Fault::ManyDevices { offset: 18 },
        "2:1: a second ToDevice is declared
    e :: ToDevice(x);
    ^
expected one ToDevice
",
    ),
    (
        "",
        Fault::BadTrace { row: 7 },
        "record 7 of the trace is wrong
expected a sender from 0 to 65535 and a length from 1 to 65535
",
    ),
    (
        "",
        Fault::UnknownSender { sender: 65535 },
        "the tree has no Sender(65535)
expected the number of a Sender of the tree
",
    ),
    (
        "",
        Fault::BadScript { line: 4294967295 },
        "line 4294967295 of the script is no command
expected 'send SENDER LENGTH', 'pull MOMENT', 'pull MOMENT DEVICE' or, at the end, 'drain MOMENT'
",
    ),
    (
        "",
        Fault::TooManyPulls {
            pulls: 18446744073709551615,
        },
        "packets are left after 18446744073709551615 pulls of a drain
expected a drain that leaves none
",
    ),
    (
        "",
        Fault::TooLarge,
        "the tree is too large
expected at most 256 elements, 64 inputs of a scheduler, and 64 schedulers and Shapers on a path
",
    ),
    (
        "",
        Fault::Read,
        "the text can't be read
expected a file that can be read
",
    ),
    (
        "",
        Fault::Write,
        "the answer can't be written
expected an output that can be written
",
    ),
    (
        "",
        Fault::Unsettled {
            queue: 65535,
            accepted: 4294967295,
            capacity: 4294967295,
        },
        "queue 65535 refused or evicted a packet, though it accepted 4294967295 packets and has room for 4294967295
expected a queue that accepts packets until it is full
",
    ),
    // A fault that isn't that of the text is explained, too.
    (
        "a -> b;",
        Fault::NameTwice { offset: 5 },
        "1:6: the name 'b' is declared twice
    a -> b;
         ^
expected a name of its own for each element
",
    ),
    (
        "a -> b;",
        Fault::BadPort { offset: 0 },
        "1:1: 'a' doesn't have the port that it has here
    a -> b;
    ^
expected a port of its class
",
    ),
];

/// The explanation of a text of too many bytes.
const TOO_LONG: &str = "the text has more than 1048576 bytes
expected at most 1048576 bytes
";

/// Fails unless the fault of each text is explained so.
fn assert_explained(rt: &impl Abort, alloc: Global, rows: &[(&str, &str)]) {
    for (text, explanation) in rows {
        match Plan::read(alloc, text.as_bytes()) {
            Ok(_) => assert!(rt; false, "no fault: {text}"),
            Err(fault) => assert_explanation(rt, text.as_bytes(), fault, explanation),
        }
    }
}

/// Fails unless a fault of a text is explained so, also where a buffer has room for a part.
fn assert_explanation(rt: &impl Abort, text: &[u8], fault: Fault, wanted: &str) {
    let explanation = explain(text, fault);
    let told = str::from_utf8(explanation.as_slice()).unwrap_or("");
    assert_eq!(rt; told, wanted);
    assert!(rt; wanted.len() <= MAX_EXPLANATION);
    let mut buffer = [1; 8];
    assert_eq!(rt; explanation.fill(&mut buffer[..7]), wanted.len());
    assert!(rt; wanted.as_bytes().starts_with(&buffer[..7]));
    assert_eq!(rt; buffer[7], 1);
}

// What is wrong in a text of another kind is told in words of the caller's. Words beyond the limit of a line are dropped.
#[test]
fn places_of_any_text_are_pointed_out(rt: HostRuntime) {
    let text = b"a\nb\tc";
    let wrong = Words::of("no ")
        .and_quoted(b"tree")
        .and(" as at ")
        .and_position(text, 2);
    let expected = Words::of("expected ").and_number(7);
    assert_eq!(rt;
        point_out(text, 4, &wrong, &expected).as_slice(),
        b"2:3: no 'tree' as at 2:1\n    b c\n      ^\nexpected 7\n".as_slice()
    );
    assert_eq!(rt;
        tell(&wrong, &expected).as_slice(),
        b"no 'tree' as at 2:1\nexpected 7\n".as_slice()
    );
    let mut long = Words::of("");
    for _ in 0..300 {
        long = long.and("x");
    }
    assert_eq!(rt; long.as_slice().len(), MAX_WORDS);
    assert_eq!(rt; tell(&long, &long).as_slice().len(), 2 * MAX_WORDS + 2);
}

#[test]
fn faults_are_explained(rt: HostRuntime) {
    assert_explained(&rt, rt.alloc(), BAD_TEXTS);
    assert_explained(&rt, rt.alloc(), LEFT_OUT);
    assert_explained(&rt, rt.alloc(), FAULTS);
    for (text, fault, explanation) in ANY {
        assert_explanation(&rt, text.as_bytes(), *fault, explanation);
    }
    let long = vec![in rt.alloc(); b' '; 1_048_577].expect(&rt, "memory");
    assert_explanation(&rt, &long, Fault::TooLarge, TOO_LONG);
}
