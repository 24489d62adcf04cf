//! Room: values. Tells how an edit or an update changes the slots and the stored bytes of a body,
//! from the place that it changes. Knows nothing of the limits of objects. Its tests stand in
//! `updates_tests`.
#![tactic(auto)]

mod change;
mod edits;
mod updates;

pub use change::Change;
pub use edits::{pair_put, pair_removed, slot_inserted, slot_removed, slot_replaced};
pub use updates::body_updated;
