//! Which bytes make a name.
ghost use Rattle.std.specs.Prelude.{◌≡◌};
ghost use Rattle.std.specs.List.{list_all};
ghost use Rattle.std.specs.Char.{is_ascii_alphanumeric};
ghost use Rattle.texts.specs.Names.{is_name, is_letters_and_digits, is_user_name};

use crate::limits::USER_LIMIT;
use crate::name_bytes::{are_name_bytes, starts_name};

/// Whether these bytes are an identifier: a letter or `_`, and then letters, digits and `_`.
pub fn is_name(bytes: &[u8]) -> bool
    ensures { result ≡ is_name bytes.now }
{
    match bytes.split_first() {
        Some((first, rest)) => starts_name(*first) && are_name_bytes(rest),
        None => false,
    }
}

/// Whether these bytes are the name of a user: a letter with letters and digits after it, at most
/// 64 in all.
pub fn is_user_name(bytes: &[u8]) -> bool
    ensures { result ≡ is_user_name bytes.now }
{
    is_letters_and_digits(bytes) && bytes.len() <= USER_LIMIT
}

fn is_letters_and_digits(bytes: &[u8]) -> bool
    ensures { result ≡ is_letters_and_digits bytes.now }
{
    match bytes.split_first() {
        Some((first, rest)) => first.is_ascii_alphabetic() && are_letters_and_digits(rest),
        None => false,
    }
}

fn are_letters_and_digits(bytes: &[u8]) -> bool
    ensures { result ≡ list_all is_ascii_alphanumeric bytes.now }
{
    bytes.iter().all(|byte| byte.is_ascii_alphanumeric())
}
