//! What the special forms ask of values.

/// What a value is as a condition.
#[derive(Clone, Copy, Debug, PartialEq, Eq, Hash)]
pub enum Truth {
    True,
    False,
    /// It is no Boolean.
    Neither,
}

/// What two values are as the ends of a counting loop.
#[derive(Clone, Copy, Debug, PartialEq, Eq, Hash)]
pub enum Pair {
    /// Two integers, the first number and the limit.
    Ints(i64, i64),
    /// Not both of them are integers.
    Others,
}
