//! Room: running. Gives the variables, scopes, activations and made blocks of a running chunk, and
//! which messages are special forms. Knows nothing of objects and of how a tree is run. Its tests
//! stand in `machine_tests`.
#![tactic(auto)]

mod activations;
mod forms;
mod frame;
mod locals;
mod made_block;
mod names;
mod operands;
mod place;
mod scope;

pub use activations::Activations;
pub use forms::{first_loop, form_of, form_under, is_super_head};
pub use frame::{Frame, frame_without_scopes, method_frame};
pub use locals::{Locals, count_params, nil_values, with_nils};
pub use made_block::MadeBlock;
pub use names::{is_super, where_is};
pub use operands::{int_pair, plain_constant, singleton_value, truth_of};
pub use place::{Place, block_place};
