//! What the first checkpoint writes around its root.
ghost use Rattle.std.specs.Prelude.{◌≡◌, ◌-◌, ◌∷◌, ◌++◌, IfOk};
ghost use Rattle.page_file.specs.Around.{zeros, selector_piece, empty_piece};

use disk_pieces::Piece;
use extent_pages::PAGE_SIZE;
use std::alloc::{AllocError, Global};

// So many zeros.
#[tactic(auto, unfolding(crate::specs::Around::zeros))]
fn make_zeros(alloc: Global, count: usize) -> Result<Vec<u8>, AllocError>
    ensures { IfOk result (λ bytes. bytes.items ≡ zeros count) }
{
    vec![in alloc; 0; count]
}

// The bytes behind the gate, up to the first root. The selector is odd.
pub(crate) fn make_selector_piece(alloc: Global) -> Result<Piece, AllocError>
    ensures { IfOk result (λ piece. piece ≡ selector_piece) }
{
    let mut bytes = vec![in alloc; 1]?;
    bytes.extend_from_slice(&make_zeros(alloc, PAGE_SIZE as usize - 2)?)?;
    Ok(Piece::new(1, bytes))
}

// An empty page in the place of the second root.
pub(crate) fn make_empty_piece(alloc: Global) -> Result<Piece, AllocError>
    ensures { IfOk result (λ piece. piece ≡ empty_piece) }
{
    let bytes = make_zeros(alloc, PAGE_SIZE as usize)?;
    Ok(Piece::new(2 * PAGE_SIZE, bytes))
}
