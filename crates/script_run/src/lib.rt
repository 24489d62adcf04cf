//! Room: sessions and server. Runs the sessions of a script side by side over an image and a keeper.
//! Knows nothing of devices, and of where the image came from. Its tests stand in `server_tests`.
#![tactic(auto)]

mod run;
mod session;
mod together;

pub use run::{Ran, Start, run_script};
