//! What a device is: bytes that come in, or bytes that go out, and a count of faults.
ghost use Rattle.std.specs.Prelude.{ℕ, ◌<◌, List, Option, length, IfOk};
ghost use Rattle.std.specs.Io.{ReadsAtMost, WritesAtMost};
ghost use Rattle.std.specs.Io.KnownBytes.{ReadConsumes, WriteAppends};
ghost use Rattle.gem_io.specs.Faults.{HasCause};

use std::error::Error;
use std::fmt;

/// A device didn't do what it was asked for. Its count of faults tells that it failed, and nothing
/// tells why.
#[derive(Clone, Copy, Debug, PartialEq, Eq)]
pub struct Failed;

impl fmt::Display for Failed {
    ghost use Rattle.std.specs.Prelude.{Some, codes};

    ghost output = { λ _. Some (codes "the device failed") };

    fn fmt<W: fmt::Write>(&self, f: &mut fmt::Formatter<W>) -> fmt::Result {
        f.write_str("the device failed")
    }
}

impl Error for Failed {}

/// Bytes that come in.
pub trait Source {
    /// The bytes that are still to come, where the source tells them.
    ghost left: { Self → Option (List ℕ) };

    /// How often the source has failed. The count stays at 2^64 - 1, and then counts as risen in
    /// each call.
    ghost faults: { Self → ℕ };

    /// Moves the next bytes to the front of `out`, which isn't empty, and says how many: 0 only at
    /// the end. What stands after them in `out` is left open. `Failed` moves nothing. The count of
    /// faults rises in a call that fails, and in no other.
    fn pull(&mut self, out: &mut [u8]) -> Result<usize, Failed>
        requires { 0 < length out.old }
        ensures bound { ReadsAtMost result out.new }
        ensures bytes { ReadConsumes (left self.old) (left self.new) result out.new }
        ensures faults { HasCause (faults self.old) (faults self.new) result };
}

/// Bytes that go out.
pub trait Sink {
    /// The bytes that the sink has taken, where it tells them.
    ghost written: { Self → Option (List ℕ) };

    /// How often the sink has failed. The count stays at 2^64 - 1, and then counts as risen in
    /// each call.
    ghost faults: { Self → ℕ };

    /// Takes at least one byte from the front of `piece`, which isn't empty, and says how many.
    /// `Failed` takes nothing. The count of faults rises in a call that fails, and in no other.
    fn put(&mut self, piece: &[u8]) -> Result<usize, Failed>
        requires { 0 < length piece.now }
        ensures bound { WritesAtMost result piece.now }
        ensures some { IfOk result (λ n. 0 < n) }
        ensures bytes { WriteAppends (written self.old) (written self.new) result piece.now }
        ensures faults { HasCause (faults self.old) (faults self.new) result };
}
