//! Where the blocks of code stand.
ghost use Rattle.std.specs.Prelude.{◌≡◌};
ghost use Rattle.st_code.specs.Lines.{end_of, ascend, are_blocks};

/// Where the code of a method, a chunk or a block begins, and how many variables it has.
#[derive(Clone, Copy, Debug, PartialEq, Eq)]
pub struct BlockCode {
    /// The place of its first byte. It goes up to the start of the next one.
    pub start: u32,
    /// How many parameters it has.
    pub params: u32,
    /// How many temporaries it has.
    pub temps: u32,
}

/// Where the block ends of which these are the later ones.
pub(crate) fn end_of(size: usize, later: &[BlockCode]) -> usize
    ensures { result ≡ end_of size later.now }
{
    match later.first() {
        Some(next) => next.start as usize,
        None => size,
    }
}

/// Whether there is a block, and the starts begin at 0 and ascend below the size.
pub(crate) fn are_blocks(size: usize, blocks: &[BlockCode]) -> bool
    ensures { result ≡ are_blocks size blocks.now }
{
    let Some(first) = blocks.first() else {
        return false;
    };
    first.start == 0 && ascend(size, blocks)
}

fn ascend(size: usize, blocks: &[BlockCode]) -> bool
    ensures { result ≡ ascend size blocks.now }
{
    let mut rest = blocks;
    while let Some((block, later)) = rest.split_first() {
        if block.start as usize >= end_of(size, later) {
            return false;
        }
        rest = later;
    }
    true
}
