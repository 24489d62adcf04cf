//! Why there are no bytes for code.
ghost use Rattle.std.specs.Prelude.{◌≡◌, codes, Some};
ghost use Rattle.st_encoder.specs.declared.error.EncodeError.TheVariants.{TooLarge, NoMemory};

use std::alloc::{AllocError, AllocFailed};
use std::error::Error;
use std::fmt;

/// Why compiled code has no bytes.
#[derive(Clone, Copy, Debug, PartialEq, Eq)]
pub enum EncodeError {
    /// The bytes are 2^32 or more, or a number in them is larger than its place: a depth above 255,
    /// or another number above 2^32 - 1.
    TooLarge,
    /// Memory ran out.
    NoMemory,
}

impl fmt::Display for EncodeError {
    ghost output = { λ error. Some (error_text error) };

    ghost use Rattle.st_encoder.specs.ErrorText.{error_text};

    fn fmt<W: fmt::Write>(&self, f: &mut fmt::Formatter<W>) -> fmt::Result {
        match *self {
            EncodeError::TooLarge => f.write_str("code too large"),
            EncodeError::NoMemory => f.write_str("out of memory"),
        }
    }
}

impl Error for EncodeError {}

impl From<AllocError> for EncodeError {
    ghost from_gives = { λ _ error. error ≡ NoMemory };

    fn from(_: AllocError) -> EncodeError {
        EncodeError::NoMemory
    }
}

impl<T: Drop> From<AllocFailed<T>> for EncodeError {
    ghost from_gives = { λ _ error. error ≡ NoMemory };

    fn from(_: AllocFailed<T>) -> EncodeError {
        EncodeError::NoMemory
    }
}
