//! What bodies hold more than one of: values, pairs, groups and methods.
ghost use Rattle.std.specs.Prelude.{◌≡◌, ◌++◌, ◌∷◌, [], ℕ, List, OnOk};
ghost use Rattle.std.specs.List.{flat_map};
ghost use Rattle.gem_object.specs.seg_rights.Right.{rank_of};
ghost use Rattle.body_codec.specs.Spelled.{spelled_text, spelled_value, spelled_pair, spelled_occurrences, spelled_grant, spelled_code, spelled_method, spelled_changed, spelled_queue, short_list, long_list};

use crate::numbers::{put_bytes, put_i64, put_text, put_u8, put_u16, put_u32, put_u64};
use crate::write::put_object;
use gem_object::{Dictionary, Method, MethodCode, Object, Oid, Queue, Right, Text, Value};
use std::alloc::AllocError;

// What has bytes of its own where it is stored.
pub(crate) trait Spell {
    ghost spelled: { Self → List ℕ };

    // Adds its bytes.
    fn put(&self, out: &mut Vec<u8>) -> Result<(), AllocError>
        ensures { OnOk result (out.new.items ≡ out.old.items ++ spelled self.now) };
}

impl Spell for Text {
    ghost spelled = { spelled_text };

    fn put(&self, out: &mut Vec<u8>) -> Result<(), AllocError> {
        put_text(self.bytes(), out)
    }
}

impl Spell for Value {
    ghost spelled = { spelled_value };

    fn put(&self, out: &mut Vec<u8>) -> Result<(), AllocError> {
        put_value(self, out)
    }
}

impl Spell for (Value, Value) {
    ghost spelled = { spelled_pair };

    fn put(&self, out: &mut Vec<u8>) -> Result<(), AllocError> {
        put_pair(&self.0, &self.1, out)
    }
}

impl Spell for (Value, u64) {
    ghost spelled = { spelled_occurrences };

    fn put(&self, out: &mut Vec<u8>) -> Result<(), AllocError> {
        put_value(&self.0, out)?;
        put_u64(self.1, out)
    }
}

impl Spell for (Text, Right) {
    ghost spelled = { spelled_grant };

    fn put(&self, out: &mut Vec<u8>) -> Result<(), AllocError> {
        put_text(self.0.bytes(), out)?;
        put_right(self.1, out)
    }
}

impl Spell for Method {
    ghost spelled = { spelled_method };

    fn put(&self, out: &mut Vec<u8>) -> Result<(), AllocError> {
        put_text(self.selector.bytes(), out)?;
        put_code(&self.code, out)
    }
}

impl Spell for (Oid, Object) {
    ghost spelled = { spelled_changed };

    fn put(&self, out: &mut Vec<u8>) -> Result<(), AllocError> {
        put_u64(self.0.number(), out)?;
        put_object(&self.1, out)
    }
}

// Adds a value: its tag, and its content.
fn put_value(value: &Value, out: &mut Vec<u8>) -> Result<(), AllocError>
    ensures { OnOk result (out.new.items ≡ out.old.items ++ spelled_value value.now) }
{
    match value {
        Value::Nil => put_u8(0, out),
        Value::False => put_u8(1, out),
        Value::True => put_u8(2, out),
        Value::Int(number) => {
            put_u8(3, out)?;
            put_i64(*number, out)
        }
        Value::Char(code) => {
            put_u8(4, out)?;
            put_u8(*code, out)
        }
        Value::Sym(name) => {
            put_u8(5, out)?;
            put_text(name.bytes(), out)
        }
        Value::Ref(oid) => {
            put_u8(6, out)?;
            put_u64(oid.number(), out)
        }
        Value::Block(_) => Ok(()),
    }
}

fn put_pair(key: &Value, value: &Value, out: &mut Vec<u8>) -> Result<(), AllocError>
    ensures { OnOk result (out.new.items ≡ out.old.items ++ spelled_pair (key.now, value.now)) }
{
    put_value(key, out)?;
    put_value(value, out)
}

// Adds the number of a right: 0 for none, 1 for reading, 2 for writing.
pub(crate) fn put_right(right: Right, out: &mut Vec<u8>) -> Result<(), AllocError>
    ensures { OnOk result (out.new.items ≡ out.old.items ++ rank_of right ∷ []) }
{
    let number = match right {
        Right::None => 0,
        Right::Read => 1,
        Right::Write => 2,
    };
    put_u8(number, out)
}

fn put_code(code: &MethodCode, out: &mut Vec<u8>) -> Result<(), AllocError>
    ensures { OnOk result (out.new.items ≡ out.old.items ++ spelled_code code.now) }
{
    match code {
        MethodCode::Source(source) => {
            put_u8(0, out)?;
            put_bytes(source.bytes(), out)
        }
        MethodCode::Primitive(number) => {
            put_u8(1, out)?;
            put_u8(*number, out)
        }
    }
}

// Adds all items, one after the other.
fn put_all<T: Spell>(items: &[T], out: &mut Vec<u8>) -> Result<(), AllocError>
    ensures { OnOk result (out.new.items ≡ out.old.items ++ flat_map T.spelled items.now) }
{
    for item in items {
        item.put(out)?;
    }
    Ok(())
}

// Adds how many items there are, in two bytes, and the items.
pub(crate) fn put_short<T: Spell>(items: &[T], out: &mut Vec<u8>) -> Result<(), AllocError>
    ensures { OnOk result (out.new.items ≡ out.old.items ++ short_list T.spelled items.now) }
{
    put_u16(items.len(), out)?;
    put_all(items, out)
}

// The same with a count of four bytes.
pub(crate) fn put_long<T: Spell>(items: &[T], out: &mut Vec<u8>) -> Result<(), AllocError>
    ensures { OnOk result (out.new.items ≡ out.old.items ++ long_list T.spelled items.now) }
{
    put_u32(items.len() as u64, out)?;
    put_all(items, out)
}

// Adds the pairs of a dictionary, in their order, behind their number.
pub(crate) fn put_dictionary(pairs: &Dictionary, out: &mut Vec<u8>) -> Result<(), AllocError>
    ensures { OnOk result (out.new.items ≡ out.old.items ++ long_list spelled_pair pairs.now) }
{
    put_u32(pairs.len() as u64, out)?;
    put_pairs(pairs, out)
}

fn put_pairs(pairs: &Dictionary, out: &mut Vec<u8>) -> Result<(), AllocError>
    ensures { OnOk result (out.new.items ≡ out.old.items ++ flat_map spelled_pair pairs.now) }
{
    for at in 0..pairs.len() {
        if let Some((key, value)) = pairs.pair(at) {
            put_pair(key, value, out)?;
        }
    }
    Ok(())
}

// Adds the removals and the items of a queue.
pub(crate) fn put_queue(queue: &Queue<Value>, out: &mut Vec<u8>) -> Result<(), AllocError>
    ensures { OnOk result (out.new.items ≡ out.old.items ++ spelled_queue queue.now) }
{
    put_u64(queue.removed(), out)?;
    put_u32(queue.size(), out)?;
    put_waiting(queue, out)
}

fn put_waiting(queue: &Queue<Value>, out: &mut Vec<u8>) -> Result<(), AllocError>
    ensures { OnOk result
        (out.new.items ≡ out.old.items ++ flat_map spelled_value queue.now.items) }
{
    for at in 0..queue.size() {
        if let Some(item) = queue.item(at) {
            put_value(item, out)?;
        }
    }
    Ok(())
}
