//! What a name stands for.

/// An object that a name of the language always stands for.
#[derive(Clone, Copy, Debug, PartialEq, Eq, Hash)]
pub enum Singleton {
    Nil,
    True,
    False,
}

/// What a name stands for at a place.
#[derive(Clone, Copy, Debug, PartialEq, Eq, Hash)]
pub enum Where {
    /// The receiver of the method.
    Receiver,
    /// This object.
    Fixed(Singleton),
    /// A variable: how many scopes lie between, from 0, and its index in its scope.
    Variable(usize, usize),
    /// No variable that is in scope: an instance variable, a global, or nothing.
    OutOfScope,
}
