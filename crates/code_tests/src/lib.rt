//! Room: running. Tests `st_encoder`, on what `st_compiler` gives.
#![tactic(auto)]

#[cfg(test)]
mod encoded;
