//! The line of each fault.

use clk_command::fault_line;
use clk_packet::{FailingSink, Fault};
use std::alloc::Global;
use std::process::Abort;

/// A fault of each variant, and its line.
const FAULTS: &[(Fault, &str)] = &[
    (Fault::Memory, "fault 1: Memory\n"),
    (Fault::BadText { offset: 18 }, "fault 2: BadText 18\n"),
    (
        Fault::UnknownClass { offset: 5 },
        "fault 3: UnknownClass 5\n",
    ),
    (Fault::BadArgument { offset: 5 }, "fault 4: BadArgument 5\n"),
    (Fault::NameTwice { offset: 12 }, "fault 5: NameTwice 12\n"),
    (Fault::UnknownName { offset: 0 }, "fault 6: UnknownName 0\n"),
    (Fault::BadPort { offset: 30 }, "fault 7: BadPort 30\n"),
    (Fault::PortTwice { offset: 80 }, "fault 8: PortTwice 80\n"),
    (
        Fault::PortMissing { offset: 28 },
        "fault 9: PortMissing 28\n",
    ),
    (Fault::WrongKind { offset: 34 }, "fault 10: WrongKind 34\n"),
    (Fault::NoDevice, "fault 11: NoDevice\n"),
    (
        Fault::ManyDevices { offset: 3 },
        "fault 12: ManyDevices 3\n",
    ),
    (Fault::NotATree { offset: 0 }, "fault 13: NotATree 0\n"),
    (Fault::BadTrace { row: 2 }, "fault 14: BadTrace 2\n"),
    (
        Fault::UnknownSender { sender: 9 },
        "fault 15: UnknownSender 9\n",
    ),
    (Fault::BadScript { line: 2 }, "fault 16: BadScript 2\n"),
    (
        Fault::TooManyPulls { pulls: 266 },
        "fault 17: TooManyPulls 266\n",
    ),
    (Fault::TooLarge, "fault 18: TooLarge\n"),
    (Fault::Read, "fault 19: Read\n"),
    (Fault::Write, "fault 20: Write\n"),
    (
        Fault::Unsettled {
            queue: 0,
            accepted: 3,
            capacity: 10,
        },
        "fault 21: Unsettled 0 3 10\n",
    ),
];

fn line_of(rt: &impl Abort, alloc: Global, fault: Fault) -> Vec<u8> {
    let mut writer = FailingSink::new(vec![in alloc; 0; 64].expect(rt, "ample memory"));
    assert_eq!(rt; fault_line(fault, &mut writer), Ok(()), "at {fault:?}");
    writer.taken().to_vec(alloc).expect(rt, "ample memory")
}

// The derive that shows a fault has no contract. This test shows that it says what `fault_line` writes.
#[test]
fn a_fault_has_a_line(rt: HostRuntime) {
    for &(fault, text) in FAULTS {
        let shown = format!(in rt.alloc(); "{fault}\n").expect(&rt, "ample memory");
        assert_eq!(rt; shown.as_str(), text);
        assert_eq!(rt; line_of(&rt, rt.alloc(), fault).as_slice(), text.as_bytes());
    }
}
