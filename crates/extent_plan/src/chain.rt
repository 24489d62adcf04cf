//! Chains as pieces.
ghost use Rattle.std.specs.Prelude.{◌≡◌, ◌-◌, ◌≤◌, ◌++◌, length, replicate, IfOk, OnOk};
ghost use Rattle.extent_pages.specs.Pages.{payload_size};
ghost use Rattle.extent_pages.specs.Spelled.{spelled_page};
ghost use Rattle.extent_pages.specs.Extent;
ghost use Rattle.extent_plan.specs.Pieces.{page_piece, chain_pieces, Fills};

use crate::numbers::put_four;
use disk_pieces::Piece;
use std::alloc::{AllocError, Global};

// How many bytes a page has.
pub(crate) const PAGE_SIZE: u64 = 16_384;

// How many of them are payload.
pub(crate) const PAYLOAD_SIZE: usize = 16_376;

// Fills bytes up to this size with zeros.
pub(crate) fn fill_up(bytes: &mut Vec<u8>, size: usize) -> Result<(), AllocError>
    requires { length bytes.old.items ≤ size }
    ensures { OnOk result (bytes.new.items
        ≡ bytes.old.items ++ replicate (size - length bytes.old.items) 0) }
{
    bytes.resize(size, 0)
}

// The bytes of a page of a chain.
fn spell_page(alloc: Global, next: u32, payload: &[u8]) -> Result<Vec<u8>, AllocError>
    requires { length payload.now ≤ payload_size }
    ensures { IfOk result (λ bytes. bytes.items ≡ spelled_page next payload.now) }
{
    let mut bytes = Vec::new(alloc);
    put_four(u64::from(next), &mut bytes)?;
    put_four(payload.len() as u64, &mut bytes)?;
    bytes.extend_from_slice(payload)?;
    fill_up(&mut bytes, PAGE_SIZE as usize)?;
    Ok(bytes)
}

// A page of a chain as a piece.
fn piece_of_page(alloc: Global, page: u32, next: u32, payload: &[u8]) -> Result<Piece, AllocError>
    requires { length payload.now ≤ payload_size }
    ensures { IfOk result (λ piece. piece ≡ page_piece page next payload.now) }
{
    let bytes = spell_page(alloc, next, payload)?;
    Ok(Piece::new(PAGE_SIZE * u64::from(page), bytes))
}

// The first of these pages, or 0 where there are none.
pub(crate) fn first_page(pages: &[u32]) -> u32
    ensures { result ≡ Extent.first_page pages.now }
{
    match pages.first() {
        Some(page) => *page,
        None => 0,
    }
}

/// Adds the pieces of a chain of these pages, which the payload fills.
pub(crate) fn put_chain(
    alloc: Global,
    pages: &[u32],
    payload: &[u8],
    out: &mut Vec<Piece>,
) -> Result<(), AllocError>
    requires { Fills pages.now payload.now }
    ensures { OnOk result (out.new.items ≡ out.old.items ++ chain_pieces pages.now payload.now) }
{
    let mut rest = pages;
    let mut left = payload;
    while let Some((page, behind)) = rest.split_first() {
        let (here, more) = left.split_at(left.len().min(PAYLOAD_SIZE));
        out.push(piece_of_page(alloc, *page, first_page(behind), here)?)?;
        rest = behind;
        left = more;
    }
    Ok(())
}
