//! Room: store. Reads the records of a log and adds records to it, over a disk. Knows nothing of
//! images and of pages. Its tests stand in `store_tests`.
#![tactic(auto)]

mod body;
mod fault;
pub mod laws;
mod log;
mod logged;
mod piece;
mod read;
mod replay;
mod writing;

pub use body::{add_body, spell_body};
pub use fault::{LogFault, LogRule};
pub use log::{AppendFault, LOG_LIMIT, Log, open_log, replay_log};
pub use logged::Logged;
pub use replay::Replay;
