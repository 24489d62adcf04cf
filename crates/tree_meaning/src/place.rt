//! What an activation keeps of a scope.

/// How much stood when a scope was opened. What was added since is given back where the scope
/// closes, unless a block was made in between.
#[derive(Clone, Copy, Debug, PartialEq, Eq, Hash)]
pub struct Mark {
    /// How many scopes there were: the number of the scope that was opened.
    pub scopes: u64,
    /// How many blocks were made.
    pub blocks: u64,
    /// How many activations had begun.
    pub living: u64,
}
