//! Room: sessions and server. Takes a seed and how many sessions and rounds; gives the scripts of a
//! generated load, and what its numbers add up to. Knows nothing of what a script does. Its tests stand in `words_tests`.
#![tactic(auto)]

mod generator;
mod limits;
mod scripts;
mod sums;

pub use limits::{LOAD_ROUND_LIMIT, LOAD_SEED_LIMIT, LOAD_SESSION_LIMIT};
pub use scripts::{load_script, setup_script, tally_script};
pub use sums::load_sum;
