//! A writer that fails in mid-stream.

use crate::row::linted;
use clk_packet::Fault;

const TREE: &str = "q :: Queue; h :: Shaper(2, 1); d :: ToDevice(l); q -> h -> d;";

const LINES: &[u8] = b"warning: h: burst 1 is below the rate, 2\nwarning: q: nobody sends to it\n";

#[test]
fn a_writer_may_fail_after_any_byte(rt: HostRuntime) -> Result<(), Fault> {
    for room in 0..LINES.len() {
        let (outcome, taken) = linted(rt.alloc(), TREE, None, room)?;
        assert_eq!(rt; outcome, Err(Fault::Write), "{room} bytes");
        assert_eq!(rt; taken.as_slice(), &LINES[..room]);
    }
    let (outcome, taken) = linted(rt.alloc(), TREE, None, LINES.len())?;
    assert_eq!(rt; outcome, Ok(()));
    assert_eq!(rt; taken.as_slice(), LINES);
    Ok(())
}
