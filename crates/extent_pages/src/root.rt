//! What a root says.

/// What a root says of its extent.
#[derive(Clone, Copy, Debug, PartialEq, Eq)]
pub struct Root {
    /// The number of the commit up to which the extent goes.
    pub number: u64,
    /// The largest serial of the objects' names.
    pub serial: u32,
    /// How many objects there are.
    pub objects: u64,
    /// The first page of the directory.
    pub directory: u32,
    /// How many pages the directory and the leaves have.
    pub pages: u32,
}
