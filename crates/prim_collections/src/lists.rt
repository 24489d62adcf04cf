//! New lists of values.
ghost use Rattle.std.specs.Prelude.{◌≡◌, map, IfOk};

use gem_object::{Dictionary, Value};
use std::alloc::{AllocError, Global};

/// The keys of a dictionary, in their order.
pub fn keys_of(alloc: Global, pairs: &Dictionary) -> Result<Vec<Value>, AllocError>
    ensures { IfOk result (λ keys. keys.items ≡ map (λ pair. pair.0) pairs.now) }
{
    let mut keys = Vec::new(alloc);
    for at in 0..pairs.len() {
        if let Some((key, _)) = pairs.pair(at) {
            keys.push(key.clone()?)?;
        }
    }
    Ok(keys)
}

/// The values of a dictionary, in their order.
pub fn values_of(alloc: Global, pairs: &Dictionary) -> Result<Vec<Value>, AllocError>
    ensures { IfOk result (λ values. values.items ≡ map (λ pair. pair.1) pairs.now) }
{
    let mut values = Vec::new(alloc);
    for at in 0..pairs.len() {
        if let Some((_, value)) = pairs.pair(at) {
            values.push(value.clone()?)?;
        }
    }
    Ok(values)
}
