//! The pages that the current root uses.
ghost use Rattle.std.specs.Prelude.{◌≡◌, ◌⊎◌, ◌+◌, ◌<◌, ◌≤◌, ◌++◌, ◌==◌, ◌||◌, false, ℕ, length, get_or, IfOk};
ghost use Rattle.extent_pages.specs.Pages.{most_pages, is_one_of};
ghost use Rattle.extent_plan.specs.Runs.{AscendFrom};
ghost use Rattle.extent_plan.specs.Used.{pages_in, marked, Collected};

use crate::place::LeafPlace;
use std::alloc::{AllocError, Global};

// One more than the greatest number of a page.
const PAGES: usize = 262_144;

// So many marks, none of which is set.
fn no_marks(alloc: Global, count: usize) -> Result<Vec<bool>, AllocError>
    ensures length { IfOk result (λ marks. length marks.items ≡ count) }
    ensures none { IfOk result (λ marks. (page : ℕ) → get_or marks.items page false ≡ false) }
{
    let marks = vec![in alloc; false; count]?;
    Ok(marks)
}

// Marks one page.
fn mark_page(marks: &mut [bool], page: u32)
    ensures marks { (other : ℕ) → other < length marks.old →
        get_or marks.new other false ≡ (get_or marks.old other false || (other == page)) }
    ensures length { length marks.new ≡ length marks.old }
{
    let place = page as usize;
    if place < marks.len() {
        marks[place] = true;
    }
}

// Marks pages.
fn mark_pages(marks: &mut [bool], pages: &[u32])
    ensures marks { (page : ℕ) → page < length marks.old →
        get_or marks.new page false ≡ (get_or marks.old page false || is_one_of page pages.now) }
    ensures length { length marks.new ≡ length marks.old }
{
    let mut rest = pages;
    while let Some((page, behind)) = rest.split_first() {
        mark_page(marks, *page);
        rest = behind;
    }
}

// Marks the pages of leaves.
fn mark_leaves(marks: &mut [bool], leaves: &[LeafPlace])
    ensures marks { (page : ℕ) → page < length marks.old →
        get_or marks.new page false
        ≡ (get_or marks.old page false || is_one_of page (pages_in leaves.now)) }
    ensures length { length marks.new ≡ length marks.old }
{
    let mut rest = leaves;
    while let Some((leaf, behind)) = rest.split_first() {
        mark_pages(marks, &leaf.pages);
        rest = behind;
    }
}

// Whether a page is marked.
fn is_marked(marks: &[bool], page: u32) -> bool
    ensures { result ≡ get_or marks.now page false }
{
    match marks.get(page as usize) {
        Some(marked) => *marked,
        None => false,
    }
}

// The pages from 3 on and before this one that are marked, in ascending order.
fn marked_pages(alloc: Global, marks: &[bool], count: u32) -> Result<Vec<u32>, AllocError>
    requires { 3 ≤ count }
    ensures { IfOk result (λ pages. Collected 3 (marked marks.now) pages.items count) }
{
    let mut pages = Vec::new(alloc);
    for page in 3..count {
        if !is_marked(marks, page) {
            continue;
        }
        pages.push(page)?;
    }
    Ok(pages)
}

/// The pages that a directory and leaves use, from 3 on, in ascending order.
///
/// # Errors
///
/// `AllocError` where memory ran out.
pub fn used_pages(
    alloc: Global,
    directory: &[u32],
    leaves: &[LeafPlace],
) -> Result<Vec<u32>, AllocError>
    ensures ascend { IfOk result (λ pages. AscendFrom 3 pages.items) }
    ensures few { IfOk result (λ pages. 3 + length pages.items ≤ most_pages) }
    ensures are { IfOk result (λ pages. (page : ℕ) → 3 ≤ page → page < most_pages →
        is_one_of page pages.items ≡ is_one_of page (directory.now ++ pages_in leaves.now)) }
    ensures none { IfOk result (λ pages. (page : ℕ) → (page < 3) ⊎ (most_pages ≤ page) →
        is_one_of page pages.items ≡ false) }
{
    let mut marks = no_marks(alloc, PAGES)?;
    mark_pages(&mut marks, directory);
    mark_leaves(&mut marks, leaves);
    let pages = marked_pages(alloc, &marks, PAGES as u32)?;
    Ok(pages)
}
