//! The pages that a checkpoint may write.
ghost use Rattle.std.specs.Prelude.{◌≡◌, ◌≢◌, ◌+◌, ◌≤◌, ◌∷◌, ℕ, List, length, IfOk, MatchOption};
ghost use Rattle.extent_pages.specs.Pages.{most_pages};
ghost use Rattle.extent_plan.specs.Runs.{AscendFrom, IsRun};

use std::alloc::{AllocError, Global};

// The pages behind this one, where it is the first of them.
fn behind_page(pages: &[u32], page: u32) -> Option<&[u32]>
    ensures { MatchOption result ((behind : List ℕ) → pages.now ≢ page ∷ behind)
        (λ behind. pages.now ≡ page ∷ behind.now) }
{
    let (first, behind) = pages.split_first()?;
    if *first == page { Some(behind) } else { None }
}

/// So many pages from page 3 on that aren't used, the lowest, in ascending order. The used ones
/// ascend, and with those that are wanted there are no more pages than an extent may have.
pub(crate) fn free_pages(alloc: Global, used: &[u32], count: usize) -> Result<Vec<u32>, AllocError>
    requires used { AscendFrom 3 used.now }
    requires room { 3 + length used.now + count ≤ most_pages }
    ensures run { IfOk result (λ pages. IsRun used.now 3 pages.items) }
    ensures count { IfOk result (λ pages. length pages.items ≡ count) }
{
    let mut pages = Vec::new(alloc);
    let mut page: u32 = 3;
    let mut rest = used;
    while pages.len() < count {
        if let Some(behind) = behind_page(rest, page) {
            rest = behind;
            page += 1;
            continue;
        }
        pages.push(page)?;
        page += 1;
    }
    Ok(pages)
}
