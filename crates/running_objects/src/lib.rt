//! Room: running. Gives what a running transaction may do to objects, for code that is written once
//! over several states. Knows nothing of the Stone and of other sessions.
#![tactic(auto)]

mod chunks;
pub mod laws;
mod limits;
mod objects;
mod stop;

pub use chunks::RunsChunks;
pub use limits::is_small_with;
pub use object_programs::{ACTIVATION_LIMIT, Fault};
pub use objects::Objects;
pub use stop::Stop;
