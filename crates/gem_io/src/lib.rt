//! Room: shelves. Moves bytes in and out, in pieces, or says that a device failed. Knows nothing of
//! scripts and reports.
//!
//! The traits are `Source` and `Sink`, with devices in memory and over the readers and writers of
//! std. Each device has a count of faults, which rises in a call that fails, and in no other. A
//! device may tell its contents: what a source has left, and what a sink has taken. A `Gate` is where
//! a session may be held. Its tests stand in `shelves_tests`.
#![tactic(auto)]

mod device;
mod gate;
mod memory;
mod standard;
mod sure;

pub use device::{Failed, Sink, Source};
pub use gate::{Gate, OpenGate};
pub use memory::{MemSink, MemSource};
pub use standard::{StdSink, StdSource};
pub use sure::{SureSink, SureSource};
