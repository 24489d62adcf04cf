//! Room: sessions and server. Takes a text; gives its sessions, each a user and commands, or the
//! line and the rule that it breaks first. Knows nothing of what a command does. Its tests stand in
//! `sessions_tests`.
#![tactic(auto)]

mod fault;
pub mod laws;
mod limits;
mod pieces;
mod reading;
mod rule;
mod script;
mod table;

pub use fault::ScriptFault;
pub use limits::{CHUNK_LIMIT, COMMAND_LIMIT, SCRIPT_LIMIT, SESSION_LIMIT};
pub use reading::read_script;
pub use rule::ScriptRule;
pub use script::{Command, Script, SessionScript};
