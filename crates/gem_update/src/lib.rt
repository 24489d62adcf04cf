//! Room: values. Takes a body and an update of it, or the bodies at a session's view and at a
//! commit's place and the updates between; gives the body that follows, or that it is refused.
//! Knows nothing of sessions, of images and of names that are kept.
//!
//! The four classes whose updates are merged stand in crates of their own. `Merging` says once what
//! their calls have in common, and `update_body` and `merge_body` join them over bodies. Its tests
//! stand in `updates_tests`.
#![tactic(auto)]

mod changes;
mod joined;
pub mod laws;
mod merging;
mod references;
mod update;

pub use joined::{UpdateFault, merge_body, merge_kind, update_body};
pub use merging::Merging;
pub use update::Update;
