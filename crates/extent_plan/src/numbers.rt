//! Numbers, with the low byte first.
ghost use Rattle.std.specs.Prelude.{◌≡◌, ◌++◌, OnOk};
ghost use Rattle.body_codec.specs.Spelled.{four_bytes, eight_bytes};

use std::alloc::AllocError;

// Adds a number in four bytes.
#[tactic(auto, unfolding(body_codec::specs::Spelled::four_bytes))]
pub(crate) fn put_four(number: u64, out: &mut Vec<u8>) -> Result<(), AllocError>
    ensures { OnOk result (out.new.items ≡ out.old.items ++ four_bytes number) }
{
    let low = (number % (1 << 32)) as u32;
    out.extend_from_slice(&low.to_le_bytes())
}

// Adds a number in eight bytes.
#[tactic(auto, unfolding(body_codec::specs::Spelled::eight_bytes))]
pub(crate) fn put_eight(number: u64, out: &mut Vec<u8>) -> Result<(), AllocError>
    ensures { OnOk result (out.new.items ≡ out.old.items ++ eight_bytes number) }
{
    out.extend_from_slice(&number.to_le_bytes())
}
