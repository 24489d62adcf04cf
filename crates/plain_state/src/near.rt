//! Places of entries that are mostly known.
ghost use Rattle.std.specs.Prelude.{◌≡◌, nat_eq};
ghost use Rattle.indexmap.specs.IndexMap.{index_of};

use crate::entry::Entry;
use indexmap::IndexMap;

/// The place of the object of this name, if there is one; it mostly is this one.
#[inline(always)]
pub(crate) fn place_near(entries: &IndexMap<u64, Entry>, at: usize, number: u64) -> Option<usize>
    ensures { result ≡ index_of nat_eq entries.now number }
{
    let slice = entries.as_slice();
    if let Some((key, _)) = slice.get_index(at) {
        if *key == number {
            return Some(at);
        }
    }
    entries.get_index_of(&number)
}
