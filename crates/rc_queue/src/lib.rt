//! Room: values. Takes a queue and a session's updates of it; gives the queue that a commit leaves,
//! or the removal that is refused. Knows nothing of sessions and objects.
//!
//! A session works on the queue as it stood at its view, and hands over what it did as a list of
//! updates. At the commit `Queue::merge` applies them to the queue as it stands at the commit's
//! place. Adds always merge; a removal merges only where the front is still the one that the
//! session took. Its tests stand in `values_tests`.
#![tactic(auto)]

pub mod laws;
mod queue;
mod update;

pub use queue::Queue;
pub use update::{QueueFault, QueueUpdate};
