//! Room: Stone. Lets several sessions use one Stone, each by a port of its own. Knows nothing of what
//! sessions do. Its tests stand in `server_tests`.
//!
//! The Stone lies behind a lock, with the pen of a clock whose list is the Stone's events. A port has
//! its session's stamp of that clock: what the session has seen. In each call the port takes the lock,
//! lets the pen meet its stamp, asks the Stone, and takes a new stamp.
#![tactic(auto)]

mod locked;
mod named;
mod port;
mod settled;
mod shared;

pub use named::Named;
pub use port::Port;
pub use settled::Settled;
pub use shared::SharedStone;
