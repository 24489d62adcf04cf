//! What a keeper is.
ghost use Rattle.std.specs.Prelude.{◌≡◌, ◌≤◌, ◌<◌, ◌+◌, ◌^◌, ℕ, Bool, true, [], ◌∷◌, ◌++◌, length, Option, IsTrue, OnOk, IfErr};
ghost use Rattle.gem_io.specs.Faults.{HasRisen};
ghost use Rattle.gem_record.specs.declared.mode.Mode.{Mode};
ghost use Rattle.gem_record.specs.declared.effect.Effect.{Effect};
ghost use Rattle.tran_log.specs.Log.{spelled_record};
ghost use Rattle.gem_record.specs.Stored.{Stored, longer_by, pages_needed, after_checkpoint};
ghost use Rattle.gem_image.specs.Image.{Image, with_objects};
ghost use Rattle.gem_keeper.specs.Keeper.{AppendFails, CheckFails};
ghost use Rattle.gem_keeper.specs.Found.{Found, StandsFor};
ghost use Rattle.gem_keeper.specs.Crashes.{FitsNow, KeepsOnly, IsNextBody, StandsForEither};

use gem_image::Image;
use gem_record::{LOG_LIMIT, PAGE_LIMIT};
use std::alloc::Global;
use std::error::Error;
use std::fmt;
use tran_log::AppendFault;

/// Why a checkpoint wasn't made.
#[derive(Clone, Copy, Debug, PartialEq, Eq)]
pub enum CheckFault {
    /// It would count more than `PAGE_LIMIT` pages. Nothing was done.
    Full {
        /// How many it would count.
        pages: u64,
    },
    /// The disk failed. What is stored stands for the same image.
    Disk,
    /// Memory ran out. Nothing was done.
    NoMemory,
}

impl fmt::Display for CheckFault {
    ghost use Rattle.std.specs.Prelude.{Some};
    ghost use Rattle.gem_keeper.specs.FaultText.{check_text};

    ghost output = { λ fault. Some (check_text fault) };

    fn fmt<W: fmt::Write>(&self, f: &mut fmt::Formatter<W>) -> fmt::Result {
        match *self {
            CheckFault::Full { pages } => write!(f, "a checkpoint of {pages} pages"),
            CheckFault::Disk => f.write_str("disk fault"),
            CheckFault::NoMemory => f.write_str("out of memory"),
        }
    }
}

impl Error for CheckFault {}

/// What a Stone stores its commits with. A log takes the record of each commit, and a checkpoint
/// stores a whole image, after which the log begins anew.
///
/// A call that meets a failure of the disk may leave the keeper in a state in which it isn't ready,
/// and then nothing more may be asked of it.
pub trait Keeper {
    /// Whether the keeper counts the pages of checkpoints.
    ghost counts_pages: { Bool };

    /// Whether the keeper may be asked for something.
    ghost ready: { Self → Bool };

    /// How often its disk has failed. The count stays at 2^64 - 1, and then counts as risen in each
    /// call.
    ghost faults: { Self → ℕ };

    /// How long the log is, and the current root.
    ghost stored: { Self → Stored };

    /// Whether the keeper tells what it stands for. One that doesn't says nothing of crashes.
    ghost tells: { Bool };

    /// How many moments there have been: a crash may come at each.
    ghost moment: { Self → ℕ };

    /// What is found where the keeper is opened as it reads, if something is.
    ghost stands: { Self → Option Found };

    /// What may be found after a crash at some moment since this one, in each of its outcomes.
    /// `None` says that nothing is.
    ghost left_since: { Self → ℕ → Option Found → Type 0 };

    /// Adds a record to the log. The body is the record of some effect in some mode, with the gate
    /// behind it, closed; where the keeper tells what it stands for, of the effect of the next
    /// commit. It takes no memory.
    ///
    /// At every moment a crash leaves what stood, or that with the commit; after `Ok` it leaves the
    /// commit.
    ///
    /// `Full`: exactly where the log's length and the body's exceed `LOG_LIMIT`; nothing was done.
    /// `Disk`: only where the count of faults rose in this call.
    fn append(&mut self, body: &[u8]) -> Result<(), AppendFault>
        requires ready { ready self.old ≡ true }
        requires spelled { (mode : Mode) × (effect : Effect)
            × (body.now ≡ spelled_record mode effect ++ 0 ∷ []) }
        requires next { IsTrue tells → (image : Image) × (number : ℕ) × (effect : Effect)
            × FitsNow moment stands left_since self.old (StandsFor image number)
            × IsNextBody number effect body.now }
        ensures stored { OnOk result (stored self.new ≡ longer_by (length body.now) (stored self.old)) }
        ensures fits { OnOk result ((stored self.old).log_length + length body.now ≤ LOG_LIMIT) }
        ensures ready { OnOk result (ready self.new ≡ true) }
        ensures fault { IfErr result (AppendFails (stored self.old) (length body.now)
            (self.new ≡ self.old) (HasRisen (faults self.old) (faults self.new))) }
        ensures any_moment { (image : Image) (number : ℕ) (effect : Effect) → IsTrue tells
            → FitsNow moment stands left_since self.old (StandsFor image number)
            → IsNextBody number effect body.now
            → KeepsOnly moment left_since self.old self.new (StandsForEither image number effect) }
        ensures acknowledged { (image : Image) (number : ℕ) (effect : Effect) → IsTrue tells
            → FitsNow moment stands left_since self.old (StandsFor image number)
            → IsNextBody number effect body.now
            → OnOk result (FitsNow moment stands left_since self.new
            (StandsFor (with_objects image effect.objects) (number + 1))) }
        ensures quiet { OnOk result (faults self.new ≡ faults self.old) }
        ensures later { faults self.old ≤ faults self.new };

    /// Stores the image with so many commits, and empties the log. Where the keeper tells what it
    /// stands for, it is this image, and at every moment a crash leaves it.
    ///
    /// `Full`: exactly where the checkpoint counts more than `PAGE_LIMIT` pages; nothing was done.
    /// `Disk`: only where the count of faults rose in this call. `NoMemory` may come in place of
    /// any other answer, and nothing was done.
    fn checkpoint(&mut self, alloc: Global, image: &Image, number: u64) -> Result<(), CheckFault>
        requires ready { ready self.old ≡ true }
        requires number { number < 2 ^ 63 }
        requires stands { IsTrue tells
            → FitsNow moment stands left_since self.old (StandsFor image.now number) }
        ensures stored { OnOk result
            (stored self.new ≡ after_checkpoint counts_pages image.now number) }
        ensures fits { OnOk result
            (pages_needed counts_pages (stored self.old) image.now ≤ PAGE_LIMIT) }
        ensures ready { OnOk result (ready self.new ≡ true) }
        ensures fault { IfErr result
            (CheckFails (pages_needed counts_pages (stored self.old) image.now)
            (self.new ≡ self.old) (HasRisen (faults self.old) (faults self.new))) }
        ensures any_moment { IsTrue tells
            → KeepsOnly moment left_since self.old self.new (StandsFor image.now number) }
        ensures acknowledged { IsTrue tells → OnOk result
            (FitsNow moment stands left_since self.new (StandsFor image.now number)) }
        ensures quiet { OnOk result (faults self.new ≡ faults self.old) }
        ensures later { faults self.old ≤ faults self.new };
}
