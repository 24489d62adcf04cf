//! Room: running. Tests `st_compiler`.
#![tactic(auto)]

#[cfg(test)]
mod compiled;
