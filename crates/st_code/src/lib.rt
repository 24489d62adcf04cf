//! Room: language. Takes bytes, literals and blocks; gives code that keeps the rules of checked
//! code, or the place at which one first breaks. Knows nothing of how code is carried out. Its
//! tests stand in `language_tests`.
#![tactic(auto)]

mod blocks;
mod code;
mod fault;
pub mod laws;
mod line;
mod literals;
mod reach;
mod rules;
mod ways;

pub use blocks::BlockCode;
pub use code::Code;
pub use fault::CodeFault;
