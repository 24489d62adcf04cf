//! Room: Stone. Gives the Stone over objects, and what a session may ask of it. Its code knows
//! nothing of tokens and of trees. Its tests stand in `stone_tests`.
#![tactic(auto)]

mod effect;
pub mod laws;
mod port;
mod serial;
mod stone;

pub use effect::effect_of;
pub use port::{Begun, CheckAnswer, CommitAnswer, LockAnswer, StonePort};
pub use serial::largest_serial;
pub use stone::{Closed, Stone};
