//! Room: running. Gives the machine: runs the code of chunks and commands over objects that
//! remember look-ups. Knows nothing of how objects are kept, of the Stone and of other sessions.
//! Its tests stand in `machine_tests`.
#![tactic(auto)]

mod blocks;
mod border;
mod cache;
mod changed;
mod changing;
mod chunk;
mod code_block;
mod command;
mod conditions;
mod elements;
mod ended;
mod finds;
mod flow;
mod jumps;
mod known;
mod lack;
mod layers;
mod locals;
mod loops;
mod machine;
mod names;
mod outline;
mod places;
mod pushes;
mod quick;
mod returns;
mod scopes;
mod shared_code;
mod target;
mod turns;
mod units;

pub use cache::CodeCache;
pub use chunk::run_chunk;
pub use command::{run_command, run_text};
pub use finds::FindsMethods;
pub use lack::Lack;
pub use look_up_cache::KnownObjects;
pub use shared_code::SharedCode;
