//! What a transaction is checked for when it commits.

/// Whether a commit is refused where an object that its transaction only read has been changed since
/// its view.
#[derive(Clone, Copy, Debug, PartialEq, Eq)]
pub enum Mode {
    /// It is: what was read, too, is at the commit's place as it was in the view.
    Full,
    /// It isn't: only what was written is at the commit's place as it was in the view.
    NoRw,
}
