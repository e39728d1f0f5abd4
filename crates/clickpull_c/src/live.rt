//! Live routers in the hands of C: routers whose senders offer from threads of their own.

mod draining;
mod examples;
mod handing;
mod handle;
mod opening;
mod pulling;
mod reclaiming;
mod router;
mod taking;
mod telling;
mod values;

pub use examples::filled_examples;
pub use handle::{LiveHandle, LivePlace};
pub use router::LiveRouter;
pub use values::{CDeparted, CEmitted, CTaken};
