//! Room: language. Has the trees of texts and their copies. Knows nothing of how a text is read.
//!
//! A contract sees a tree as plain data: an `Expr` as an `Expression`, a `Stat` as a `Statement`, a
//! `Message` as a `Send`, a `BlockTree` as a `Closure` and a `Tree` as a `Program`. Its tests stand
//! in `language_tests`.
#![tactic(auto)]

mod clones;
mod nodes;

pub use nodes::{BlockTree, Expr, Literal, Literals, Message, Primary, Stat, Tree};
