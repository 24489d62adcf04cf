//! Room: shelves. Takes bytes; gives texts, what is in a name, the range of whole numbers, and how
//! long names are at most. Knows nothing of Smalltalk. Its tests stand in `shelves_tests`.
#![tactic(auto)]

mod integers;
mod limits;
mod name_bytes;
mod names;
mod text;

pub use integers::{INTEGER_LIMIT, LARGEST_INTEGER, SMALLEST_INTEGER, is_small_integer};
pub use limits::{SYMBOL_LIMIT, USER_LIMIT};
pub use name_bytes::{are_name_bytes, is_name_byte, starts_name};
pub use names::{is_name, is_user_name};
pub use text::Text;
