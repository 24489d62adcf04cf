//! Room: meaning. Gives the definitions of programs over objects: what they may do to objects and
//! budgets, and what holds of all of them. Knows nothing of trees and of look-up.
#![tactic(auto)]

mod costs;
mod fault;
pub mod laws;
mod limits;

pub use costs::{bytes_cost, is_small};
pub use fault::Fault;
pub use limits::{
    ACTIVATION_LIMIT, BYTES_LIMIT, CHAIN_LIMIT, COUNTER_LIMIT, GROUPS_LIMIT, PRINT_LIMIT,
    SLOTS_LIMIT, SPACE_LIMIT, TRANSCRIPT_LIMIT, UNIT_LIMIT,
};
