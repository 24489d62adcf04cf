//! Room: shelves. Keeps a list to which threads add in turn, each as an author; tells each thread
//! that what it saw is a front of the list, and that it has all that the thread added itself. Knows
//! nothing of what the entries are.
//!
//! The list is for proofs alone: at run time a clock is one word, the list's length. Who has the
//! pen adds pairs of an author and an entry. An author is held by the pen, or has a stamp, which
//! remembers the list as it was when the stamp was made. The pen lies where threads take turns, as
//! behind a lock, and each thread keeps a stamp of its own. In its turn a thread lets the pen meet
//! its stamp, adds, and takes a new stamp.
#![tactic(auto)]

mod clock;
mod rule;
#[cfg(test)]
mod tests;

pub use clock::{Clock, Pen, Stamp};
