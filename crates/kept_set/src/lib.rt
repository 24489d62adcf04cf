//! Room: values. Takes what a transaction wrote, made and updated; gives the made objects that are
//! kept. Knows nothing of images, of scripts and of who runs what. Its tests stand in
//! `updates_tests`.
#![tactic(auto)]

pub mod laws;
mod reach;
mod roots;

pub use reach::kept;
