//! Numbers and texts, with the low byte first.
ghost use Rattle.std.specs.Prelude.{◌≡◌, ◌++◌, ◌∷◌, [], length, OnOk};
ghost use Rattle.body_codec.specs.Spelled.{two_bytes, four_bytes, eight_bytes, integer_bytes, spelled_text};

use std::alloc::AllocError;

// Adds a number in two bytes.
#[tactic(auto, unfolding(crate::specs::Spelled::two_bytes))]
pub(crate) fn put_u16(number: usize, out: &mut Vec<u8>) -> Result<(), AllocError>
    ensures { OnOk result (out.new.items ≡ out.old.items ++ two_bytes number) }
{
    let low = (number % (1 << 16)) as u16;
    out.extend_from_slice(&low.to_le_bytes())
}

// Adds a number in four bytes.
#[tactic(auto, unfolding(crate::specs::Spelled::four_bytes))]
pub(crate) fn put_u32(number: u64, out: &mut Vec<u8>) -> Result<(), AllocError>
    ensures { OnOk result (out.new.items ≡ out.old.items ++ four_bytes number) }
{
    let low = (number % (1 << 32)) as u32;
    out.extend_from_slice(&low.to_le_bytes())
}

// Adds a number in eight bytes.
#[tactic(auto, unfolding(crate::specs::Spelled::eight_bytes))]
pub(crate) fn put_u64(number: u64, out: &mut Vec<u8>) -> Result<(), AllocError>
    ensures { OnOk result (out.new.items ≡ out.old.items ++ eight_bytes number) }
{
    out.extend_from_slice(&number.to_le_bytes())
}

// Adds an integer in eight bytes.
#[tactic(auto, unfolding(crate::specs::Spelled::eight_bytes))]
pub(crate) fn put_i64(number: i64, out: &mut Vec<u8>) -> Result<(), AllocError>
    ensures { OnOk result (out.new.items ≡ out.old.items ++ integer_bytes number) }
{
    out.extend_from_slice(&number.to_le_bytes())
}

// Adds a byte.
pub(crate) fn put_u8(number: u8, out: &mut Vec<u8>) -> Result<(), AllocError>
    ensures { OnOk result (out.new.items ≡ out.old.items ++ number ∷ []) }
{
    Ok(out.push(number)?)
}

// Adds a text: its length, and its bytes.
pub(crate) fn put_text(text: &[u8], out: &mut Vec<u8>) -> Result<(), AllocError>
    ensures { OnOk result (out.new.items ≡ out.old.items ++ spelled_text text.now) }
{
    put_u16(text.len(), out)?;
    out.extend_from_slice(text)
}

// Adds bytes behind their number in four bytes.
pub(crate) fn put_bytes(bytes: &[u8], out: &mut Vec<u8>) -> Result<(), AllocError>
    ensures { OnOk result (out.new.items
        ≡ out.old.items ++ four_bytes (length bytes.now) ++ bytes.now) }
{
    put_u32(bytes.len() as u64, out)?;
    out.extend_from_slice(bytes)
}
