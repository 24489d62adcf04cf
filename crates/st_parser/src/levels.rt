// Where an expression stands, by the messages that it may hold.
#[derive(Clone, Copy, Debug, PartialEq, Eq)]
pub(crate) enum Level {
    // The argument of a binary message: unary messages.
    OfBinary,
    // The argument of a keyword message: unary and binary messages.
    OfKeyword,
    // Elsewhere: every message.
    Full,
}
