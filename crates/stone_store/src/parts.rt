//! The parts of an open store.

use gem_image::Image;
use page_file::PageFile;
use tran_log::Log;

// The current root: up to which commit it goes, and how many pages it uses.
#[derive(Clone, Copy, Debug)]
pub(crate) struct Root {
    pub number: u64,
    pub pages: u64,
}

// Where the log ends, where the extent lies, and the current root, if there is one.
#[derive(Debug, Drop)]
pub(crate) struct Parts {
    pub log: Log,
    pub pages: PageFile,
    pub root: Option<Root>,
}

/// What was found when a store was opened.
#[derive(Drop)]
pub struct FoundImage {
    /// The image. The objects of the last checkpoint count as changed by no commit.
    pub image: Image,
    /// The number of its last commit.
    pub number: u64,
}
