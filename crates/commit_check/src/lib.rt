//! Room: Stone. Takes what a session asks to commit, and the image and the locks that it meets;
//! gives the conflicts that stand against it, and what its merges make. Knows nothing of histories,
//! of scripts and of who runs what. Its tests stand in `commit_tests`.
#![tactic(auto)]

mod check;
pub mod laws;
mod merging;
mod names;

pub use check::{Judgement, conflicts};
