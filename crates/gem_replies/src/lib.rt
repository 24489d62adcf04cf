//! Room: sessions and server. Takes the replies and the history of a run; gives the text of its
//! report. Knows nothing of what a chunk means, and of how replies and history came about. Its
//! tests stand in `sessions_tests` and `meaning_tests`.
#![tactic(auto)]

pub mod laws;
mod reply;
mod report;

pub use reply::{History, Line, Replies, Reply, RunBook, Transcript, Transcripts};
pub use report::report_text;
