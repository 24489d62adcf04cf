//! Where the pages of an extent lie.
ghost use Rattle.std.specs.Prelude.{◌≡◌, ◌≤◌, All, Some, None, IfOk, IfSome, OnOk, IsTrue, IsErrOf};
ghost use Rattle.std.specs.FinMap as map;

use extent_plan::LeafPlace;

// The current root: its page, its number, and where what it stands for lies.
#[derive(Debug, Drop)]
pub(crate) struct Current {
    pub page: u8,
    pub number: u64,
    pub directory: Vec<u32>,
    pub leaves: Vec<LeafPlace>,
    ghost page_is: { (1 ≤ page) × (page ≤ 2) },
}

/// An extent that is open: where its root and what that stands for lie.
#[derive(Debug, Drop)]
pub struct PageFile {
    pub(crate) current: Option<Current>,
}
