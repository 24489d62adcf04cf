//! Room: sessions and server. Takes the words of the command line, the bytes of a script and a disk;
//! gives the bytes of the script's report, with its commits on the disk. Its tests stand in
//! `server_tests` and `side_by_side_tests`.
#![tactic(auto)]

mod alone;
mod demo;
mod intake;
pub mod laws;
mod looking;
mod opening;
mod output;
mod server;
mod serving;
mod status;

pub use alone::serve_text;
pub use server::gemstone;
pub use status::{Ended, Events, Served, Status};
