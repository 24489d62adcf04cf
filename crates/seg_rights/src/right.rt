//! What a right is and what it allows.
ghost use Rattle.std.specs.Prelude.{◌≡◌, ◌↔◌, IsTrue};
ghost use Rattle.seg_rights.specs.Right.{IsAtMost, allows_read, allows_write, greater_of};

/// What a user may do with an object. The order is that of the variants.
#[derive(Clone, Copy, Debug, PartialEq, Eq, PartialOrd, Ord, Hash)]
pub enum Right {
    /// Neither read it nor write it.
    None,
    /// Read it.
    Read,
    /// Read it and write it.
    Write,
}

/// Whether the right allows reading.
pub fn may_read(right: Right) -> bool
    ensures value { result ≡ allows_read right }
    ensures at_least { IsTrue result ↔ IsAtMost Right.Read right }
{
    right >= Right::Read
}

/// Whether the right allows writing.
pub fn may_write(right: Right) -> bool
    ensures value { result ≡ allows_write right }
    ensures at_least { IsTrue result ↔ IsAtMost Right.Write right }
{
    right >= Right::Write
}

// The greater of two rights.
pub(crate) fn greater(right: Right, other: Right) -> Right
    ensures { result ≡ greater_of right other }
{
    right.max(other)
}
