//! Room: values. Gives the definitions of a running transaction's objects: what it reads, touches,
//! writes, makes and updates; no code. Knows nothing of scripts and of who runs what.
#![tactic(auto)]

pub mod laws;
