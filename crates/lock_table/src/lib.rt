//! Room: Stone. Takes requests of sessions for locks on objects; grants them, or names the session
//! that is in the way. Knows nothing of what an object holds and of commits. Its tests stand in
//! `stone_tests`.
#![tactic(auto)]

pub mod laws;
mod lock;
mod locks;
mod search;

pub use lock::{Asked, Holding, LockKind};
pub use locks::Locks;
