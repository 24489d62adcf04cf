//! What may be lacking for what is known to be done otherwise.

/// What is lacking for what is known to be done otherwise.
#[derive(Clone, Copy, Debug)]
pub enum Lack {
    /// A unit: E13.
    Unit,
    /// Room in an object, which would be too large: E17.
    Room,
    /// Memory.
    Memory,
}
