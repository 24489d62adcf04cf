//! The operations on two integers.

/// A division.
#[derive(Clone, Copy, Debug, PartialEq, Eq)]
pub enum Division {
    /// `//`, which rounds down.
    FloorQuotient,
    /// `\\`, whose result has the divisor's sign.
    FloorRemainder,
    /// `quo:`, which rounds toward 0.
    Quotient,
    /// `rem:`
    Remainder,
}

/// A comparison.
#[derive(Clone, Copy, Debug, PartialEq, Eq)]
pub enum Comparison {
    /// `<`
    Less,
    /// `>`
    Greater,
    /// `<=`
    LessOrEqual,
    /// `>=`
    GreaterOrEqual,
}

/// A combination of the bits of two integers, in two's complement.
#[derive(Clone, Copy, Debug, PartialEq, Eq)]
pub enum Bitwise {
    /// `bitAnd:`
    And,
    /// `bitOr:`
    Or,
    /// `bitXor:`
    Xor,
}

/// An operation on two integers that makes no object.
#[derive(Clone, Copy, Debug, PartialEq, Eq)]
pub enum Operation {
    /// `+`
    Add,
    /// `-`
    Subtract,
    /// `*`
    Multiply,
    /// `//`, `\\`, `quo:` or `rem:`
    Divide(Division),
    /// `<`, `>`, `<=` or `>=`
    Compare(Comparison),
    /// `bitAnd:`, `bitOr:` or `bitXor:`
    CombineBits(Bitwise),
    /// `bitShift:`
    Shift,
}
