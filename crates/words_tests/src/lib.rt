//! Room: sessions and server. Tests `load_maker` and `program_words`.
#![tactic(auto)]

#[cfg(test)]
mod load_maker_tests;
#[cfg(test)]
mod program_words_tests;
