//! Room: meaning. Gives what transactions over objects, histories, sessions and legal runs are;
//! definitions. Knows nothing of how anything is computed fast.
#![tactic(auto)]

mod event;

pub use event::What;
