//! A router whose senders offer from threads of their own, through inlets.
#![tactic(auto)]

mod draining;
mod examples;
mod live;
mod offering;
mod opening;
mod pulling;
mod reclaiming;
mod settling;
mod taking;
mod tokens;

pub use draining::{Departed, DrainEnd};
pub use examples::{
    full_examples, pulled_examples, share_examples, taken_examples, token_examples,
};
pub use live::Live;
pub use pulling::Emitted;
pub use reclaiming::Reclaimed;
pub use taking::{OfferOutcome, Taken};
