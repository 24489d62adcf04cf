//! Room: values. Takes a dictionary and a session's updates of it; gives the dictionary that a
//! commit leaves, or the update that is refused. Knows nothing of sessions and objects.
//!
//! A session works on the dictionary as it stood at its view, and hands over what it did as a list
//! of updates. At the commit `KeyDict::merge` applies them to the dictionary as it stands at the
//! commit's place, so that sessions that update different keys don't stand in each other's way. Its
//! tests stand in `values_tests`.
#![tactic(auto)]

mod dict;
pub mod laws;
mod pairs;
mod update;

pub use dict::KeyDict;
pub use update::{DictFault, DictUpdate};
