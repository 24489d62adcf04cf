//! The special forms of messages.

use crate::name::Singleton;

/// How a message is evaluated. A loop by `whileTrue:` or `whileFalse:` is none of these: its
/// receiver is a block too.
#[derive(Clone, Copy, Debug, PartialEq, Eq, Hash)]
pub enum Form {
    /// The message is sent.
    Plain,
    /// `ifTrue:`, `ifFalse:`, `and:` or `or:`: the block is evaluated where the receiver is this
    /// truth value, and else the answer is this object.
    OneArm(bool, Singleton),
    /// `ifTrue:ifFalse:` or `ifFalse:ifTrue:`: the first block is evaluated where the receiver is
    /// this truth value, and else the second one.
    TwoArms(bool),
    /// `to:do:`.
    Counting,
    /// `timesRepeat:`.
    Repeating,
}
