//! Room: values. Gives values, bodies and objects, with their slots, sizes and what they refer to.
//! Knows nothing of images, of scripts and of who runs what. Its tests stand in `objects_tests`.
#![tactic(auto)]

mod body;
mod kind;
pub mod laws;
mod lists;
mod object;
mod references;
mod size;
mod value;

pub use body::{Body, ClassBody, Method, MethodCode, UserBody};
pub use gem_value::{Conflict, ConflictKind, Conflicts, Oid, Sequence};
pub use insertion_map::InsertionMap;
pub use kind::Kind;
pub use lists::{ByteString, Dictionary, Methods, Names, Values};
pub use object::Object;
pub use rc_counter_bag::{Bag, BagFault, BagUpdate, Counter, CounterRange};
pub use rc_dict::{DictFault, DictUpdate, KeyDict};
pub use rc_queue::{Queue, QueueFault, QueueUpdate};
pub use seg_rights::{Groups, Right, Rights, may_read, may_write};
pub use texts::{
    INTEGER_LIMIT, LARGEST_INTEGER, SMALLEST_INTEGER, SYMBOL_LIMIT, Text, are_name_bytes, is_name,
    is_name_byte, is_small_integer, is_user_name, starts_name,
};
pub use value::{BlockRef, Value};
