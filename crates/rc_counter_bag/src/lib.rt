//! Room: values. Takes a counter or a bag and a session's updates of it; gives the object that a
//! commit leaves, or the update that is refused. Knows nothing of sessions and names of objects.
//!
//! A session works on the object as it stood at its view, and hands over what it did as a list of
//! updates. At the commit `merge` applies them to the object as it stands at the commit's place, so
//! that two sessions that add don't stand in each other's way. Its tests stand in `values_tests`.
#![tactic(auto)]

mod bag;
mod counter;
pub mod laws;
mod pairs;
mod update;

pub use bag::Bag;
pub use counter::{Counter, CounterRange};
pub use update::{BagFault, BagUpdate};
