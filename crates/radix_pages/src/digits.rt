//! Keys as digits: the slot that a key has in a node, and the rest of the key below it.
ghost use Rattle.std.specs.Prelude.{◌≡◌, ◌+◌, ◌*◌, ◌%◌, ◌^◌, ◌<◌, ◌↔◌, IsTrue};

/// The key without its upper digits: its lowest `shift` bits.
pub(crate) fn rest_of(key: u64, shift: u32) -> u64
    requires { shift < 64 }
    ensures { result ≡ key % 2 ^ shift }
{
    key & ((1 << shift) - 1)
}

/// Whether a key needs no more than these bits.
pub(crate) fn has_bits(key: u64, bits: u32) -> bool
    requires { bits < 64 }
    ensures { IsTrue result ↔ key < 2 ^ bits }
{
    key < 1 << bits
}

/// The key that has this rest in the slot at this place.
pub(crate) fn key_of(at: usize, rest: u64, shift: u32) -> u64
    requires shift { shift < 64 }
    requires in_range { at * 2 ^ shift + rest < 2 ^ 64 }
    ensures { result ≡ at * 2 ^ shift + rest }
{
    ((at as u64) << shift) + rest
}
