//! Room: running. Gives the private view of a session over an image: what its transaction looks at,
//! changes and makes, and the record of it. Knows nothing of the Stone and of other sessions. Its
//! tests stand in `view_tests`.
#![tactic(auto)]

mod calls;
mod fault;
mod finish;
pub mod laws;
mod objects;
mod view;

pub use fault::ViewFault;
pub use view::View;
