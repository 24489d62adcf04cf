//! Room: running. Gives what both evaluators share: replies, commands and how methods are
//! installed. Knows nothing of the Stone and of other sessions. Its tests stand in
//! `running_tests`.
#![tactic(auto)]

mod border;
mod command;
mod leaving;
mod limits;
mod printing;
mod reply;

pub use border::{literal, print, take_unit};
pub use command::{Command, install_source};
pub use leaving::{leave_block, leave_method};
pub use limits::SOURCE_LIMIT;
pub use printing::print_value;
pub use reply::{Reply, reply_to_chunk, reply_to_fault, reply_to_stop};
