//! Every front of the trace of eight senders with a hundred packets each.

use clk_packet::{Fault, FromRead, Traces};
use std::alloc::{AllocError, Global};
use std::test::Fail;

/// A packet of each sender. A record has five bytes with its line feed.
const ROUND: &[u8] = b"0,64\n1,64\n2,64\n3,64\n4,64\n5,64\n6,64\n7,64\n";

fn eight_senders(alloc: Global) -> Result<Vec<u8>, AllocError> {
    let mut trace = Vec::new(alloc);
    for _ in 0..100 {
        trace.extend_from_slice(ROUND)?;
    }
    Ok(trace)
}

// A record that is cut off before the first digit of its length is bad. Without its line feed or the second digit it is a record.
fn fault_of_front(bytes: u32) -> Option<Fault> {
    match bytes % 5 {
        1 | 2 => Some(Fault::BadTrace { row: bytes / 5 + 1 }),
        _ => None,
    }
}

#[test]
fn a_front_of_a_long_trace_is_one_or_ends_in_a_bad_record(rt: HostRuntime) -> Result<(), Fail> {
    let trace = eight_senders(rt.alloc())?;
    assert_eq!(rt; trace.len(), 4000);
    for bytes in 0..=4000_u32 {
        let front = trace.get(..bytes as usize).expect(&rt, "a front");
        let fault = Traces::read_csv(rt.alloc(), &mut FromRead::new(front)).err();
        assert_eq!(rt; fault, fault_of_front(bytes), "{bytes} bytes");
    }
    Ok(())
}
