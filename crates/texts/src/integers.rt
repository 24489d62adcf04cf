//! The integers of the language.
ghost use Rattle.std.specs.Prelude.{◌≡◌};
ghost use Rattle.texts.specs.SmallInteger.{is_small_integer};

/// The integers of the language are those from `-INTEGER_LIMIT` on that are below `INTEGER_LIMIT`.
pub const INTEGER_LIMIT: u64 = 1 << 60;

/// The smallest integer of the language.
pub const SMALLEST_INTEGER: i64 = -(INTEGER_LIMIT as i64);

/// The largest integer of the language.
pub const LARGEST_INTEGER: i64 = INTEGER_LIMIT as i64 - 1;

/// Whether the number is an integer of the language.
pub fn is_small_integer(value: i64) -> bool
    ensures { result ≡ is_small_integer value }
{
    SMALLEST_INTEGER <= value && value <= LARGEST_INTEGER
}
