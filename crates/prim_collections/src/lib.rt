//! Room: running. Gives the primitives of Arrays, OrderedCollections, Strings, Symbols and
//! IdentityDictionaries. Knows nothing of trees, of the Stone and of other sessions. Its tests
//! stand in `running_tests`.
#![tactic(auto)]

mod bodies;
mod by_number;
mod copies;
mod dictionaries;
mod indexes;
mod integers;
mod layout;
mod lists;
mod pairs;
mod seen_texts;
mod sequences;
mod strings;

pub use by_number::call;
