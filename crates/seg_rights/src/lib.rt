//! Room: values. Takes the rights that a segment gives, a user and the user's groups; gives the
//! user's right. Knows nothing of what an object holds and of sessions. Its tests stand in
//! `values_tests`.
#![tactic(auto)]

mod groups;
pub mod laws;
mod right;
mod rights;

pub use groups::Groups;
pub use right::{Right, may_read, may_write};
pub use rights::Rights;
