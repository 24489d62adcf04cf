//! Room: running. Gives the plain state of a running transaction, over two images. Knows nothing of
//! the Stone and of other sessions. Its tests stand in `running_tests`.
#![tactic(auto)]

mod at_hand;
mod before;
mod calls;
mod classes;
mod direct;
mod edit;
mod edits;
mod entry;
mod groups;
pub mod laws;
mod lists;
mod makes;
mod many;
mod moves;
mod near;
mod overlay;
mod pairs;
mod parts;
mod puts;
mod shown;
mod state;
mod updates;
mod writes;

pub use state::PlainState;
