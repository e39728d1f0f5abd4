//! A router of pull schedulers, and the inlets of its senders, for C: a static library of one export a call.
// C callers use the functions of include/clickpull.h, which test their pointers and call these.
#![tactic(auto)]

mod draining;
mod examples;
mod explaining;
mod handle;
mod inlets;
mod live;
mod offering;
mod opening;
mod parts;
mod pulling;
mod recording;
mod statuses;
mod telling;
mod values;

pub use examples::{
    call_examples, explanation_examples, inlet_examples, record_examples, refusal_examples,
};
pub use handle::{Handle, Place};
pub use inlets::{InletHandle, InletPlace};
pub use live::{CDeparted, CEmitted, CTaken, LiveHandle, LivePlace, LiveRouter, filled_examples};
pub use values::{CAccount, CDeparture, CFault, COffer, COffered, CPacket, CQueue, CTotal};
