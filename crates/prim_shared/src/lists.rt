//! New lists of values.
ghost use Rattle.std.specs.Prelude.{◌≡◌, ◌++◌, map, replicate, IfOk, OnOk};
ghost use Rattle.gem_object.specs.declared.value.Value.TheVariants.{Sym};
ghost use Rattle.prim_rules.specs.Bags.{items_of};

use gem_object::{Queue, Sequence, Text, Value, Values};
use std::alloc::{AllocError, Global};

/// Symbols of these texts.
pub fn symbols_of(alloc: Global, texts: &[Text]) -> Result<Values, AllocError>
    ensures { IfOk result (λ values. values ≡ map Sym texts.now) }
{
    let mut values = Vec::new(alloc);
    for text in texts {
        values.push(Value::Sym(text.clone()?))?;
    }
    Ok(Sequence::of(values))
}

/// The keys of these pairs.
pub fn keys_of(alloc: Global, pairs: &[(Value, Value)]) -> Result<Values, AllocError>
    ensures { IfOk result (λ values. values ≡ map (λ pair. pair.0) pairs.now) }
{
    let mut values = Vec::new(alloc);
    for pair in pairs {
        values.push(pair.0.clone()?)?;
    }
    Ok(Sequence::of(values))
}

/// The items of a bag, each as often as it occurs.
pub fn items_of(alloc: Global, occurrences: &[(Value, u64)]) -> Result<Values, AllocError>
    ensures { IfOk result (λ values. values ≡ items_of occurrences.now) }
{
    let mut values = Vec::new(alloc);
    for pair in occurrences {
        push_times(&mut values, &pair.0, pair.1)?;
    }
    Ok(Sequence::of(values))
}

// The item comes so many times at the end.
fn push_times(values: &mut Vec<Value>, item: &Value, times: u64) -> Result<(), AllocError>
    ensures { OnOk result (values.new.items ≡ values.old.items ++ replicate times item.now) }
{
    for turn in 0..times {
        values.push(item.clone()?)?;
    }
    Ok(())
}

/// The items of a queue, from the front on.
pub fn waiting_in(alloc: Global, queue: &Queue<Value>) -> Result<Values, AllocError>
    ensures { IfOk result (λ values. values ≡ queue.now.items) }
{
    let mut values = Vec::new(alloc);
    for at in 0..queue.size() {
        if let Some(item) = queue.item(at) {
            values.push(item.clone()?)?;
        }
    }
    Ok(Sequence::of(values))
}
