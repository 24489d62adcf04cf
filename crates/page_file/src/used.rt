//! How many pages the current root uses.
ghost use Rattle.std.specs.Prelude.{◌≡◌, ◌-◌, ◌^◌, Option, min, length, option_map};
ghost use Rattle.gem_disk.specs.Disk.{Past};
ghost use Rattle.extent_pages.specs.Extent.{Extent, pages_used};
ghost use Rattle.extent_plan.specs.Totals.{pages_at};
ghost use Rattle.page_file.specs.PageFile.{IsAtRest};

use crate::file::PageFile;
use extent_plan::LeafPlace;

// How many pages these leaves have, or 2^64 - 1 where there are more.
fn count_pages(places: &[LeafPlace]) -> u64
    ensures { result ≡ min (pages_at places.now) (2 ^ 64 - 1) }
{
    let mut count: u64 = 0;
    let mut rest = places;
    while let Some((place, behind)) = rest.split_first() {
        count = count.saturating_add(place.pages.len() as u64);
        rest = behind;
    }
    count
}

impl PageFile {
    /// How many pages the current root uses, if there is one.
    pub fn used(&self) -> Option<u64>
        ensures { (past : Past) (before : Option Extent) → IsAtRest past self.now before →
            result ≡ option_map (λ extent. length (pages_used extent)) before }
    {
        match &self.current {
            Some(current) => {
                let directory = current.directory.len() as u64;
                Some(count_pages(&current.leaves).saturating_add(directory))
            }
            None => None,
        }
    }
}
