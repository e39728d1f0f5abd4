//! Standard output and standard error that fail in mid-stream: a front of the text was written.

use clk_command_fixtures::{AMPLE, Answered, answer, input, write};
use clk_packet::Fault;
use clk_rows::CANONICAL_TEXT;
use std::process::Abort;
use std::rt::Files;
use std::sync::Wait;
use std::test::Fail;
use std::thread::Threads;

const REPORT: &str = "sender 0: sent 2 30, accepted 2 30, refused 0 0, evicted 0 0, emitted 2 30\n";

/// A tree of a sender and a queue.
const ALONE: &str = "s :: Sender(0); q :: Queue; d :: ToDevice(link); s -> q -> d;";

/// An answer over the tree `ALONE`, and the visits that follow it.
const FOLLOWED: &str = "\
0#0 10 accepted
pull 0: 0#0 10
pull 0: none
pull,node,input,fresh,sender,number,length,passed,moment
0,0,0,1,0,0,10,1,0
1,0,0,1,,,,0,0
";

// What words return and write.
fn answered<H: Files + AllocGlobal + Threads + Wait + Sync + Abort>(
    rt: &H,
    words: &str,
    room: usize,
    errors_room: usize,
) -> Answered {
    answer(rt, words, input(), room, errors_room).expect(rt, "ample memory")
}

// Fails unless words write this text to standard output, or as much of it as standard output takes before it fails, and nothing else.
fn assert_written_so_far<H: Files + AllocGlobal + Threads + Wait + Sync + Abort>(
    rt: &H,
    words: &str,
    text: &[u8],
) {
    for room in 0..text.len() {
        let cut = answered(rt, words, room, AMPLE);
        let difference = cut.difference_from(Err(Fault::Write), &text[..room]);
        assert_eq!(rt; difference, None, "{words}, {room} bytes");
    }
    let whole = answered(rt, words, text.len(), AMPLE);
    assert_eq!(rt; whole.difference_from(Ok(0), text), None, "{words}");
}

#[test]
fn standard_output_may_fail_after_any_byte(rt: HostRuntime) -> Result<(), Fail> {
    let row = CANONICAL_TEXT;
    write(&rt, "out/cut.click", row.tree)?;
    write(&rt, "out/cut.trace", "0,10\n0,20\n")?;
    assert_written_so_far(&rt, "check out/cut.click", row.canonical.as_bytes());
    assert_written_so_far(&rt, "run out/cut.click out/cut.trace", REPORT.as_bytes());
    write(&rt, "out/cut.alone.click", ALONE)?;
    write(&rt, "out/cut.script", "send 0 10\npull 0\npull 0\n")?;
    assert_written_so_far(
        &rt,
        "script out/cut.alone.click out/cut.script --visits -",
        FOLLOWED.as_bytes(),
    );
    for &words in &["--help", "script --help"] {
        let help = answered(&rt, words, AMPLE, AMPLE).written;
        assert!(rt; !help.is_empty());
        assert_written_so_far(&rt, words, &help);
    }
    Ok(())
}

#[test]
fn standard_error_may_fail_after_any_byte(rt: HostRuntime) {
    let text = answered(&rt, "frob", AMPLE, AMPLE).told;
    assert!(rt; !text.is_empty());
    for room in 0..text.len() {
        let cut = answered(&rt, "frob", AMPLE, room);
        assert_eq!(rt; cut.outcome, Err(Fault::Write), "{room} bytes");
        assert_eq!(rt; cut.told.as_slice(), &text[..room]);
        assert!(rt; cut.written.is_empty());
    }
    let whole = answered(&rt, "frob", AMPLE, text.len());
    assert_eq!(rt; (whole.outcome, whole.told), (Ok(2), text));
}
