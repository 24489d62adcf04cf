//! Room: values. Gives the record that a session hands over when it commits, what the history keeps
//! of it, the effect of a commit with its size, what record a run leaves, and how much of a log and
//! of pages is used. Knows nothing of scripts and of who runs what. Its tests stand in
//! `objects_tests`.
#![tactic(auto)]

mod by_name;
mod effect;
pub mod laws;
mod limits;
mod mode;
mod oid_list;
mod record;

pub use by_name::ByName;
pub use effect::Effect;
pub use limits::{LOG_LIMIT, PAGE_LIMIT};
pub use mode::Mode;
pub use oid_list::OidList;
pub use record::{Entry, TxnRecord};
