//! Room: store. Chooses what a checkpoint writes: which leaves stay as they are, which are written
//! anew, on which pages, and with which bytes. Knows nothing of disks and of crashes. Its tests stand
//! in `extent_tests`.
#![tactic(auto)]

mod chain;
mod draft;
mod free;
mod fresh;
mod gather;
pub mod laws;
mod lay;
mod numbers;
mod place;
mod plan;
mod totals;
mod used;

pub use place::LeafPlace;
pub use plan::{MOST_PAGES, Plan, PlanFault, plan_checkpoint};
pub use used::used_pages;
