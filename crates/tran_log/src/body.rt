//! The bytes of a record.
ghost use Rattle.std.specs.Prelude.{◌≡◌, ◌+◌, ◌^◌, ◌<◌, ◌≤◌, List, ◌++◌, ◌∷◌, [], length, IfOk, OnOk, OnErr};
ghost use Rattle.gem_record.specs.declared.limits.TheConstants.{LOG_LIMIT};
ghost use Rattle.body_codec.specs.Spelled.{four_bytes, eight_bytes};
ghost use Rattle.gem_record.specs.declared.mode.Mode.{Mode};
ghost use Rattle.gem_record.specs.declared.effect.Effect.{Effect};
ghost use Rattle.tran_log.specs.Log.{mode_byte, spelled_record, AreBodies};

use gem_record::Mode;
use std::alloc::{AllocError, Global};

// The highest bit of a length word, which says that the record is of format 2.
pub(crate) const FORMAT_2: u32 = 1 << 31;

/// The body of the record of this number, of a commit in this mode, whose effect has these bytes:
/// the record in format 2, and the gate behind it, closed. It is as long as the record's size,
/// which is 14 bytes more than the effect's.
///
/// A length that doesn't fit in its field is written by its low bits; such a record is longer than
/// any log.
pub fn spell_body(
    alloc: Global,
    number: u64,
    mode: Mode,
    effect: &[u8],
) -> Result<Vec<u8>, AllocError>
    ensures bytes { IfOk result (λ body. body.items
        ≡ (four_bytes (2 ^ 31 + (1 + length effect.now))
        ++ (eight_bytes number ++ (mode_byte mode ∷ effect.now))) ++ (0 ∷ [])) }
    ensures size { IfOk result (λ body. length body.items ≡ 14 + length effect.now) }
    ensures long { 2 ^ 31 ≤ 1 + length effect.now → IfOk result (λ body.
        LOG_LIMIT < length body.items) }
{
    let mut body = Vec::new(alloc);
    put_size(effect.len() as u64, &mut body)?;
    put_number(number, &mut body)?;
    body.push(byte_of(mode))?;
    body.extend_from_slice(effect)?;
    body.push(0)?;
    Ok(body)
}

/// Puts a body behind those that are already there, and opens the gate between: so a chain is made
/// for `append_chain`, from no bytes on.
pub fn add_body(chain: &mut Vec<u8>, body: &[u8]) -> Result<(), AllocError>
    ensures first { chain.old.items ≡ [] → OnOk result (chain.new.items ≡ body.now) }
    ensures further { (more : List (Mode × Effect)) (mode : Mode) (effect : Effect)
        → AreBodies more chain.old.items → body.now ≡ spelled_record mode effect ++ (0 ∷ [])
        → OnOk result (AreBodies (more ++ (mode, effect) ∷ []) chain.new.items) }
    ensures longer { OnOk result
        (length chain.new.items ≡ length chain.old.items + length body.now) }
    ensures kept { OnErr result (chain.new.items ≡ chain.old.items) }
{
    let end = chain.len();
    chain.extend_from_slice(body)?;
    if end > 0 {
        chain[end - 1] = 1;
    }
    Ok(())
}

fn byte_of(mode: Mode) -> u8
    ensures { result ≡ mode_byte mode }
{
    match mode {
        Mode::Full => 0,
        Mode::NoRw => 1,
    }
}

// Adds the length word of a record whose effect has this length.
fn put_size(size: u64, out: &mut Vec<u8>) -> Result<(), AllocError>
    requires { size < 2 ^ 63 }
    ensures { OnOk result
        (out.new.items ≡ out.old.items ++ four_bytes (2 ^ 31 + (1 + size))) }
{
    let word = (FORMAT_2 as u64 + 1 + size) % (1 << 32);
    out.extend_from_slice(&(word as u32).to_le_bytes())
}

// Adds a number in eight bytes.
fn put_number(number: u64, out: &mut Vec<u8>) -> Result<(), AllocError>
    ensures { OnOk result (out.new.items ≡ out.old.items ++ eight_bytes number) }
{
    out.extend_from_slice(&number.to_le_bytes())
}
