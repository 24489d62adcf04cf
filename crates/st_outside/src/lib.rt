//! Room: running. Gives what stands outside a tree: look-up of methods, names out of scope, new
//! objects of literals, and methods that are put into classes. Knows nothing of how a tree is run,
//! of the Stone and of other sessions. Its tests stand in `running_tests`.
#![tactic(auto)]

mod classes;
mod globals;
mod instances;
mod literals;
mod look_up;
mod methods;
mod names;

pub use globals::global_value;
pub use instances::variable_index;
pub use literals::literal;
pub use look_up::find_method;
pub use methods::install;
pub use names::{assign_name, read_name, value_of_name, write_name};
