//! Chains of pages.
ghost use Rattle.std.specs.Prelude.{◌≡◌, ◌≤◌, ◌<◌, ◌*◌, ℕ, List, ◌++◌, length, get_or, IsTrue, IfOk, IsErrOf, OnOk};
ghost use Rattle.gem_io.specs.Faults.{HasRisen};
ghost use Rattle.gem_disk.specs.declared.disk.Which.TheVariants as which;
ghost use Rattle.gem_disk.specs.Disk.{reads};
ghost use Rattle.gem_record.specs.Stored.{chain_pages};
ghost use Rattle.extent_pages.specs.Pages.{page_size, most_pages, pages_of, chain_from};
ghost use Rattle.extent_pages.specs.Contents.{page_with};
ghost use Rattle.extent_pages.specs.Reads.{Gives, Marks};

use crate::fault::{PageFault, PageRule};
use crate::page::{MOST_PAGES, PAGE_SIZE, PAYLOAD_SIZE, enter_page, next_in, payload_in};
use gem_disk::Disk;
use std::alloc::Global;
use std::marker::Model;

// A chain that was read.
#[derive(Debug, Drop)]
pub(crate) struct Chain {
    pub pages: Vec<u32>,
    pub payload: Vec<u8>,
}

impl Model for Chain {
    ghost use Rattle.extent_pages.specs.Pages.{Chain as Pages};

    ghost Value = { Pages };

    ghost view = { λ chain. record {
      pages = chain.pages.items;
      payload = chain.payload.items;
    } };
}

// The chain that begins at a page of the file, which has this size. Its pages are taken from then
// on.
pub(crate) fn read_chain<D: Disk>(
    alloc: Global,
    disk: &mut D,
    size: u64,
    marks: &mut Vec<bool>,
    first: u32,
) -> Result<Chain, PageFault>
    requires size { IsTrue D.tells → size ≡ length (reads (D.past disk.old) which.Extent) }
    requires marks { length marks.old.items ≡ most_pages }
    ensures chain { (taken : List ℕ) → IsTrue D.tells → Marks marks.old.items taken
        → Gives (λ chain. chain) result
        (chain_from (pages_of (reads (D.past disk.old) which.Extent)) taken first) }
    ensures marked { (taken : List ℕ) → IsTrue D.tells → Marks marks.old.items taken
        → IfOk result (λ chain. Marks marks.new.items (chain.pages ++ taken)) }
    ensures filled { IfOk result (λ chain. length chain.pages ≡ chain_pages (length chain.payload)) }
    ensures marks { length marks.new.items ≡ most_pages }
    ensures past { IsTrue D.tells → D.past disk.new ≡ D.past disk.old }
    ensures failed { IsErrOf result PageFault.Disk → HasRisen (D.faults disk.old) (D.faults disk.new) }
    ensures quiet { OnOk result (D.faults disk.new ≡ D.faults disk.old) }
    ensures later { D.faults disk.old ≤ D.faults disk.new }
{
    let mut pages = Vec::new(alloc);
    let mut payload = Vec::new(alloc);
    let mut page = first;
    for _ in 0..MOST_PAGES {
        let bytes = enter_page(alloc, disk, size, marks, page)?;
        pages.push(page)?;
        payload.extend_from_slice(payload_in(&bytes))?;
        let next = next_in(&bytes);
        if next == 0 {
            return Ok(Chain { pages, payload });
        }
        page = next;
    }
    Err(PageFault::NotPages {
        at: (page as u64) * PAGE_SIZE,
        rule: PageRule::Taken,
    })
}

// The page of a chain in which a field begins, by how many bytes of the payload are left there.
fn page_with(chain: &Chain, left: usize) -> u32
    ensures { result ≡ page_with chain.now left }
{
    let before = chain.payload.len().saturating_sub(left) / PAYLOAD_SIZE;
    let last = chain.pages.len().saturating_sub(1);
    page_or_none(&chain.pages, before.min(last))
}

fn page_or_none(pages: &[u32], place: usize) -> u32
    ensures { result ≡ get_or pages.now place 0 }
{
    pages.get(place).copied().unwrap_or(0)
}

// Each of these is below 256. This does nothing at run time.
pub(crate) fn are_bytes(bytes: &[u8])
    ensures { (place : ℕ) → get_or bytes.now place 0 < 256 }
{
    let _bytes = bytes;
}

// What is told of a field that breaks a rule.
pub(crate) fn fault_in(chain: &Chain, left: usize, rule: PageRule) -> PageFault
    ensures { result ≡ PageFault.NotPages (page_size * page_with chain.now left) rule }
{
    PageFault::NotPages {
        at: (page_with(chain, left) as u64) * PAGE_SIZE,
        rule,
    }
}
