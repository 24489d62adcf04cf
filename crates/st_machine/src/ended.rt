//! How parts of texts end, and what messages come to. What is answered stands on the stack, and why
//! something stopped is told beside it: a result that holds either would be moved at each call.

/// How a part of a text ended.
#[derive(Clone, Copy, Debug)]
pub(crate) enum Ended {
    /// It answers what stands on top of the stack.
    Answers,
    /// What stands on top of the stack returns to the home of its activation.
    Returns,
    /// It stopped.
    Stopped,
}

/// What a message came to, or what it calls.
#[derive(Clone, Copy, Debug)]
pub(crate) enum Called {
    /// It answers what stands on top of the stack.
    Answers,
    /// It stopped.
    Stopped,
}
