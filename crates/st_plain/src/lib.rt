//! Room: running. Gives the plain evaluator: runs chunks and commands over any objects, by their
//! trees. Knows nothing of how objects are kept, of the Stone and of other sessions. Its tests
//! stand in `running_tests`.
#![tactic(auto)]

mod arguments;
mod border;
mod choices;
mod chunk;
mod command;
mod eval;
mod sources;
mod variables;

pub use chunk::run_chunk;
pub use command::{run_command, run_text};
