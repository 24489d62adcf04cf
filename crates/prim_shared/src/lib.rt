//! Room: running. Gives the primitives of Segments, UserProfiles, the Transcript and
//! reduced-conflict objects. Knows nothing of trees, of the Stone and of other sessions. Its tests
//! stand in `running_tests`.
#![tactic(auto)]

mod answers;
mod bodies;
mod groups;
mod lists;
mod new_users;
mod receivers;
mod rows;
mod segments;
mod shared;
mod told;
mod transcript;
mod user_names;
mod users;

pub use rows::call;
