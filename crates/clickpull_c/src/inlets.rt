//! Inlets in the hands of C.

mod handle;
mod offering;

pub use handle::{InletHandle, InletPlace};
