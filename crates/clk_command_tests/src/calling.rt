//! A caller of the library, which its page CALLING.md shows: what follows from its contracts.

mod check;

use clk_packet::{FailingSink, Fault};

#[test]
fn a_text_in_memory_is_checked(rt: HostRuntime) -> Result<(), Fault> {
    let mut sink = FailingSink::new(vec![in rt.alloc(); 0; 1024]?);
    check::check_text(
        rt.alloc(),
        b"q :: Queue; d :: ToDevice(link); q -> d;",
        &mut sink,
    )?;
    let expected = "q :: Queue(1000);\nd :: ToDevice(link);\nq [0] -> [0] d;\n";
    assert_eq!(rt; sink.taken(), expected.as_bytes());
    Ok(())
}
