//! Room: running. Gives tables of chunks and of commands, each with what it is replied to, for tests
//! of whatever runs them. Knows nothing of how they are run.
#![tactic(auto)]

mod replies;
mod rows;
mod scripts;
mod shared_rows;

pub use replies::{note, told};
pub use rows::{ANY, BLOCKS, CLASSES, DICTIONARIES, NUMBERS, SEQUENCES, STRINGS};
pub use scripts::{NAMES_LEFT, SCRIPTS};
pub use shared_rows::{FORMS, LIMITS, RIGHTS, SHARED};
