//! Room: values. Tells whether an image is sound, and what the kernel's classes and objects have to
//! be. Knows nothing of scripts and of who runs what. Its tests stand in `kernel_tests`.
#![tactic(auto)]

mod chains;
mod check;
mod fault;
mod fitting;
mod kernel;
mod rules;

pub use check::sound;
pub use fault::{Rule, SoundFault};
pub use kernel::{KernelBody, KernelClass, has_body, kernel_body, kernel_class};
pub use rules::has_named_slots;
