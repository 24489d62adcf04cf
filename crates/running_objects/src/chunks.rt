//! One chunk after another.
ghost use Rattle.std.specs.Prelude.{◌≡◌};
ghost use Rattle.running_objects.specs.Seen.{with_whole_budget};

use crate::objects::Objects;

/// Objects on which one chunk after another runs, each with a budget and a transcript of its own.
pub trait RunsChunks: Objects {
    /// Begins a chunk: its budget is whole and its transcript empty. The objects stay as they are.
    /// It takes no memory.
    fn begin_chunk(&mut self)
        ensures { Self.seen self.new ≡ with_whole_budget (Self.seen self.old) };

    /// What the chunk has written on the transcript so far, at most 65,536 bytes.
    fn transcript(&self) -> &[u8]
        ensures { result.now ≡ (Self.seen self.now).budget.text };
}
