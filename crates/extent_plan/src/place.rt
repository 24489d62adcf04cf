//! Where a leaf lies.
ghost use Rattle.std.specs.Prelude.{IfOk};
ghost use Rattle.extent_plan.specs.Plan.{SamePlace};

use std::alloc::{AllocError, Global};

/// A leaf without its objects: where it lies, and what a root counts of it.
#[derive(Debug, Drop)]
pub struct LeafPlace {
    /// The number of the leaf.
    pub number: u64,
    /// The pages of its chain, in their order.
    pub pages: Vec<u32>,
    /// How many objects it has.
    pub count: u64,
    /// The largest serial of their names.
    pub serial: u32,
}

impl LeafPlace {
    /// The same once more.
    ///
    /// # Errors
    ///
    /// `AllocError` where memory ran out.
    pub fn copied(&self, alloc: Global) -> Result<LeafPlace, AllocError>
        ensures { IfOk result (SamePlace self.now) }
    {
        Ok(LeafPlace {
            number: self.number,
            pages: self.pages.as_slice().to_vec(alloc)?,
            count: self.count,
            serial: self.serial,
        })
    }
}
