//! Pages of the file of an extent.
ghost use Rattle.std.specs.Prelude.{◌≡◌, ◌+◌, ◌≤◌, ◌<◌, ℕ, List, ◌∷◌, [], true, false, length, take, drop, get_or, replicate, option_map, Result, Ok, Err, IsTrue, IfOk, IfSome, OnOk, IsErrOf};
ghost use Rattle.std.specs.Int.{w32, w64, from_le_bytes};
ghost use Rattle.gem_io.specs.Faults.{HasRisen};
ghost use Rattle.gem_disk.specs.declared.disk.Which.TheVariants as which;
ghost use Rattle.gem_disk.specs.Disk.{reads};
ghost use Rattle.extent_pages.specs.declared.fault.PageRule.{PageRule};
ghost use Rattle.extent_pages.specs.Pages.{page_size, most_pages, pages_of, next_in, used_in, payload_in, is_filled, is_inside, is_free, page_at};
ghost use Rattle.extent_pages.specs.Reads.{GivesPage, Marks};

use crate::fault::{PageFault, PageRule};
use gem_disk::{Disk, Which};
use std::alloc::{AllocError, Global};

/// How many bytes a page has.
pub const PAGE_SIZE: u64 = 16_384;

/// How many bytes of a page of a chain are payload at most.
pub const PAYLOAD_SIZE: usize = 16_376;

/// The first number that no page has.
pub const MOST_PAGES: u64 = 262_144;

// Four bytes as a number.
pub(crate) fn number_of_four(bytes: &[u8], at: usize) -> u32
    requires { at + 4 ≤ length bytes.now }
    ensures { result ≡ from_le_bytes w32 (take 4 (drop at bytes.now)) }
{
    let (_, behind) = bytes.split_at(at);
    let (front, _) = behind.split_at(4);
    u32::from_le_bytes([front[0], front[1], front[2], front[3]])
}

// Eight bytes as a number.
pub(crate) fn number_of_eight(bytes: &[u8], at: usize) -> u64
    requires { at + 8 ≤ length bytes.now }
    ensures { result ≡ from_le_bytes w64 (take 8 (drop at bytes.now)) }
{
    let (_, behind) = bytes.split_at(at);
    let (front, _) = behind.split_at(8);
    u64::from_le_bytes([
        front[0], front[1], front[2], front[3], front[4], front[5], front[6], front[7],
    ])
}

// So many bytes of the file from an offset on.
pub(crate) fn read_slice<D: Disk>(
    alloc: Global,
    disk: &mut D,
    at: u64,
    count: usize,
) -> Result<Vec<u8>, PageFault>
    requires { IsTrue D.tells → at + count ≤ length (reads (D.past disk.old) which.Extent) }
    ensures bytes { IsTrue D.tells → IfOk result (λ bytes.
        bytes.items ≡ take count (drop at (reads (D.past disk.old) which.Extent))) }
    ensures size { IfOk result (λ bytes. length bytes.items ≡ count) }
    ensures past { IsTrue D.tells → D.past disk.new ≡ D.past disk.old }
    ensures rule { (at : ℕ) (rule : PageRule) → result ≡ Err (PageFault.NotPages at rule) → ⊥ }
    ensures failed { IsErrOf result PageFault.Disk → HasRisen (D.faults disk.old) (D.faults disk.new) }
    ensures quiet { OnOk result (D.faults disk.new ≡ D.faults disk.old) }
    ensures later { D.faults disk.old ≤ D.faults disk.new }
{
    let mut bytes = vec![in alloc; 0; count]?;
    disk.read(Which::Extent, at, &mut bytes)?;
    Ok(bytes)
}

// Whether a page lies whole within a file of this size.
fn is_inside(size: u64, page: u32) -> bool
    ensures inside { (file : List ℕ) → size ≡ length file → result ≡ is_inside file page }
    ensures bound { IsTrue result → page < most_pages }
{
    (page as u64) < MOST_PAGES && (page as u64) * PAGE_SIZE + PAGE_SIZE <= size
}

// The bytes of a page, where it lies whole within the file, which has this size.
pub(crate) fn read_page<D: Disk>(
    alloc: Global,
    disk: &mut D,
    size: u64,
    page: u32,
) -> Result<Option<Vec<u8>>, PageFault>
    requires { IsTrue D.tells → size ≡ length (reads (D.past disk.old) which.Extent) }
    ensures page { IsTrue D.tells → IfOk result (λ bytes.
        option_map (λ b. b.items) bytes ≡ pages_of (reads (D.past disk.old) which.Extent) page) }
    ensures size { IfOk result (λ bytes. IfSome bytes (λ b. length b.items ≡ page_size)) }
    ensures inside { IfOk result (λ bytes. IfSome bytes (λ b. page < most_pages)) }
    ensures past { IsTrue D.tells → D.past disk.new ≡ D.past disk.old }
    ensures rule { (at : ℕ) (rule : PageRule) → result ≡ Err (PageFault.NotPages at rule) → ⊥ }
    ensures failed { IsErrOf result PageFault.Disk → HasRisen (D.faults disk.old) (D.faults disk.new) }
    ensures quiet { OnOk result (D.faults disk.new ≡ D.faults disk.old) }
    ensures later { D.faults disk.old ≤ D.faults disk.new }
{
    if !is_inside(size, page) {
        return Ok(None);
    }
    let at = (page as u64) * PAGE_SIZE;
    Ok(Some(read_slice(alloc, disk, at, PAGE_SIZE as usize)?))
}

// Marks of so many pages, of which none is taken.
pub(crate) fn no_marks(alloc: Global, count: usize) -> Result<Vec<bool>, AllocError>
    ensures marks { IfOk result (λ marks. Marks marks.items []) }
    ensures count { IfOk result (λ marks. length marks.items ≡ count) }
{
    vec![in alloc; false; count]
}

// Whether a chain may use the page, by the marks of those that are taken.
fn is_free(marks: &[bool], page: u32) -> bool
    requires { page < length marks.now }
    ensures { (taken : List ℕ) → Marks marks.now taken → result ≡ is_free taken page }
{
    page >= 3 && !marks[page as usize]
}

// The page behind this one, or 0.
pub(crate) fn next_in(bytes: &[u8]) -> u32
    requires { 8 ≤ length bytes.now }
    ensures { result ≡ next_in bytes.now }
{
    number_of_four(bytes, 0)
}

fn used_in(bytes: &[u8]) -> u32
    requires { 8 ≤ length bytes.now }
    ensures { result ≡ used_in bytes.now }
{
    number_of_four(bytes, 4)
}

// What a page holds.
pub(crate) fn payload_in(bytes: &[u8]) -> &[u8]
    requires { 8 ≤ length bytes.now }
    ensures { result.now ≡ payload_in bytes.now }
{
    let used = used_in(bytes) as usize;
    let (_, behind) = bytes.split_at(8);
    let (payload, _) = behind.split_at(used.min(behind.len()));
    payload
}

fn is_filled(bytes: &[u8]) -> bool
    requires { 8 ≤ length bytes.now }
    ensures { result ≡ is_filled bytes.now }
{
    let used = used_in(bytes) as usize;
    1 <= used && used <= PAYLOAD_SIZE && (next_in(bytes) == 0 || used == PAYLOAD_SIZE)
}

// The bytes of a page of a chain, which is taken from then on.
#[tactic(auto, unfolding(crate::specs::Pages::page_at))]
pub(crate) fn enter_page<D: Disk>(
    alloc: Global,
    disk: &mut D,
    size: u64,
    marks: &mut Vec<bool>,
    page: u32,
) -> Result<Vec<u8>, PageFault>
    requires size { IsTrue D.tells → size ≡ length (reads (D.past disk.old) which.Extent) }
    requires marks { length marks.old.items ≡ most_pages }
    ensures page { (taken : List ℕ) → IsTrue D.tells → Marks marks.old.items taken
        → GivesPage page (λ b. b.items) result
        (page_at (pages_of (reads (D.past disk.old) which.Extent)) taken page) }
    ensures marked { (taken : List ℕ) → IsTrue D.tells → Marks marks.old.items taken
        → OnOk result (Marks marks.new.items (page ∷ taken)) }
    ensures marks { length marks.new.items ≡ most_pages }
    ensures size { IfOk result (λ bytes. length bytes.items ≡ page_size) }
    ensures filled { IfOk result (λ bytes. is_filled bytes.items ≡ true) }
    ensures past { IsTrue D.tells → D.past disk.new ≡ D.past disk.old }
    ensures failed { IsErrOf result PageFault.Disk → HasRisen (D.faults disk.old) (D.faults disk.new) }
    ensures quiet { OnOk result (D.faults disk.new ≡ D.faults disk.old) }
    ensures later { D.faults disk.old ≤ D.faults disk.new }
{
    let at = (page as u64) * PAGE_SIZE;
    let Some(bytes) = read_page(alloc, disk, size, page)? else {
        return Err(PageFault::NotPages {
            at,
            rule: PageRule::Outside,
        });
    };
    if !is_free(marks, page) {
        return Err(PageFault::NotPages {
            at,
            rule: PageRule::Taken,
        });
    }
    if !is_filled(&bytes) {
        return Err(PageFault::NotPages {
            at,
            rule: PageRule::Used,
        });
    }
    marks[page as usize] = true;
    Ok(bytes)
}
