//! Explanations of faults that no router was opened for.

ghost use Rattle.std.specs.Prelude.{◌≡◌, ◌≤◌};
ghost use Rattle.clk_explain.specs.declared.limits.TheConstants.{MAX_EXPLANATION};
ghost use Rattle.clickpull_c.specs.Explains.{TellsFault, opening_fault};

use crate::statuses::{FULL, OK};
use crate::values::CFault;
use clk_explain::explain;
use clk_packet::Fault;

/// Explains a fault that opening a router over this text had: fills in as much of the explanation as the buffer has room for, and how many
/// bytes the whole has. A fault that no opening has is explained by nothing.
#[unsafe(no_mangle)]
pub extern "C" fn clk_router_explain(
    text: &[u8],
    fault: &CFault,
    buffer: &mut [u8],
    needed: &mut usize,
) -> u32
    ensures answer { TellsFault text.now (opening_fault fault.now) buffer.old buffer.new needed.new result }
    ensures few { needed.new ≤ MAX_EXPLANATION }
{
    let Some(fault) = opening_fault(fault) else {
        *needed = 0;
        return OK;
    };
    let room = buffer.len();
    *needed = explain(text, fault).fill(buffer);
    if *needed > room { FULL } else { OK }
}

/// The fault that C sees so, if opening a router can have it.
fn opening_fault(fault: &CFault) -> Option<Fault>
    ensures { result ≡ opening_fault fault.now }
{
    let offset = fault.offset;
    match fault.number {
        1 => Some(Fault::Memory),
        2 => Some(Fault::BadText { offset }),
        3 => Some(Fault::UnknownClass { offset }),
        4 => Some(Fault::BadArgument { offset }),
        5 => Some(Fault::NameTwice { offset }),
        6 => Some(Fault::UnknownName { offset }),
        7 => Some(Fault::BadPort { offset }),
        8 => Some(Fault::PortTwice { offset }),
        9 => Some(Fault::PortMissing { offset }),
        10 => Some(Fault::WrongKind { offset }),
        11 => Some(Fault::NoDevice),
        13 => Some(Fault::NotATree { offset }),
        18 => Some(Fault::TooLarge),
        _ => None,
    }
}
