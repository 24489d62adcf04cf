//! Room: running. Gives what the primitives share: arguments, kinds of objects, accesses, edits and
//! new objects. Knows nothing of trees, of the Stone and of other sessions. Its tests stand in
//! `running_tests`.
#![tactic(auto)]

mod arguments;
mod classes;
mod edits;
mod entering;
mod kinds;
mod limits;
mod making;
mod strings;

pub use arguments::{
    block_in, character_in, check, check_stored, int_in, need, no_arguments, one_of, reference_in,
    symbol_in, three_of, truth, two_of,
};
pub use edits::{
    insert_slot, put_pair, remove_pair, remove_slot, replace_body, replace_byte, replace_slot,
    update,
};
pub use entering::make_and_enter;
pub use kinds::{
    all_names, check_kind, class_of_plain, class_of_reference, class_of_value, is_kind_of,
    is_under, named_slots,
};
pub use making::{default_segment, new_object, new_object_in, new_string};
pub use prim_rules::PrimitiveAnswer;
pub use strings::{string_bytes, text_of_argument, text_of_receiver};
