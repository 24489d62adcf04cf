//! What values, bodies and objects refer to, one name after another.
ghost use Rattle.std.specs.Prelude.{◌≡◌, ◌++◌, ◌∷◌, [], ℕ, List, OnOk, OnErr};
ghost use Rattle.std.specs.List.{flat_map};
ghost use Rattle.std.specs.Option.{option_to_list};
ghost use Rattle.gem_object.specs.References.{reference_of, names_in, names_in_pairs, names_in_body, references_of};

use crate::body::Body;
use crate::lists::Dictionary;
use crate::object::Object;
use crate::value::Value;
use gem_value::Oid;
use rc_queue::Queue;
use std::alloc::AllocError;

// What refers to objects.
pub(crate) trait Refers {
    ghost names: { Self → List ℕ };

    // Adds the names' numbers at the end of the list.
    fn push_names(&self, list: &mut Vec<u64>) -> Result<(), AllocError>
        ensures { OnOk result (list.new.items ≡ list.old.items ++ names self.now) };
}

impl Refers for Value {
    ghost names = { λ value. option_to_list (reference_of value) };

    fn push_names(&self, list: &mut Vec<u64>) -> Result<(), AllocError> {
        self.push_reference(list)
    }
}

impl Refers for (Value, Value) {
    ghost names = { λ pair. names_in (pair.0 ∷ pair.1 ∷ []) };

    fn push_names(&self, list: &mut Vec<u64>) -> Result<(), AllocError> {
        push_pair(&self.0, &self.1, list)
    }
}

impl Refers for (Value, u64) {
    ghost names = { λ pair. option_to_list (reference_of pair.0) };

    fn push_names(&self, list: &mut Vec<u64>) -> Result<(), AllocError> {
        self.0.push_reference(list)
    }
}

impl Value {
    /// Adds the number of the name that the value refers to, if it does, at the end of the list.
    /// The error is want of memory, and then the list is as before.
    pub fn push_reference(&self, list: &mut Vec<u64>) -> Result<(), AllocError>
        ensures added { OnOk result
            (list.new.items ≡ list.old.items ++ option_to_list (reference_of self.now)) }
        ensures unchanged { OnErr result (list.new.items ≡ list.old.items) }
    {
        if let Some(name) = self.reference() {
            list.push(name.number())?;
        }
        Ok(())
    }
}

impl Body {
    /// Adds the numbers of the names that the body refers to at the end of the list, each as often
    /// and in the order in which the body has them. They are numbers, since a segment has its
    /// owner's number, which is a name's only where the segment has a spelling. The error is want of
    /// memory, and then the first of them may be there.
    pub fn push_references(&self, list: &mut Vec<u64>) -> Result<(), AllocError>
        ensures { OnOk result (list.new.items ≡ list.old.items ++ names_in_body self.now) }
    {
        match self {
            Body::Plain(values) => push_all(values.as_slice(), list),
            Body::Bytes(_) => Ok(()),
            Body::Dict(pairs) => push_dictionary(pairs, list),
            Body::Class(class) => push_superclass(class.superclass, list),
            Body::Segment(rights) => Ok(list.push(rights.owner)?),
            Body::User(user) => push_two(user.default_segment, user.globals, list),
            Body::Counter(_) => Ok(()),
            Body::Bag(bag) => push_all(bag.pairs(), list),
            Body::RcDict(dict) => push_all(dict.pairs(), list),
            Body::Queue(queue) => push_queue(queue, list),
        }
    }
}

impl Object {
    /// Adds the numbers of the names that the object refers to at the end of the list: its class,
    /// its segment, and those in its body. The error is want of memory, and then the first of them
    /// may be there.
    pub fn push_references(&self, list: &mut Vec<u64>) -> Result<(), AllocError>
        ensures { OnOk result (list.new.items ≡ list.old.items ++ references_of self.now) }
    {
        push_two(self.class, self.segment, list)?;
        self.body.push_references(list)
    }
}

// Adds what all items refer to.
fn push_all<T: Refers>(items: &[T], list: &mut Vec<u64>) -> Result<(), AllocError>
    ensures { OnOk result (list.new.items ≡ list.old.items ++ flat_map T.names items.now) }
{
    for item in items {
        item.push_names(list)?;
    }
    Ok(())
}

fn push_two(one: Oid, other: Oid, list: &mut Vec<u64>) -> Result<(), AllocError>
    ensures { OnOk result (list.new.items ≡ list.old.items ++ one ∷ other ∷ []) }
{
    list.push(one.number())?;
    Ok(list.push(other.number())?)
}

fn push_superclass(superclass: Option<Oid>, list: &mut Vec<u64>) -> Result<(), AllocError>
    ensures { OnOk result (list.new.items ≡ list.old.items ++ option_to_list superclass) }
{
    match superclass {
        Some(name) => Ok(list.push(name.number())?),
        None => Ok(()),
    }
}

// Adds what a key refers to before what its value refers to.
fn push_pair(key: &Value, value: &Value, list: &mut Vec<u64>) -> Result<(), AllocError>
    ensures { OnOk result
        (list.new.items ≡ list.old.items ++ names_in (key.now ∷ value.now ∷ [])) }
{
    key.push_reference(list)?;
    value.push_reference(list)
}

fn push_dictionary(pairs: &Dictionary, list: &mut Vec<u64>) -> Result<(), AllocError>
    ensures { OnOk result (list.new.items ≡ list.old.items ++ names_in_pairs pairs.now) }
{
    for at in 0..pairs.len() {
        if let Some((key, value)) = pairs.pair(at) {
            push_pair(key, value, list)?;
        }
    }
    Ok(())
}

fn push_queue(queue: &Queue<Value>, list: &mut Vec<u64>) -> Result<(), AllocError>
    ensures { OnOk result (list.new.items ≡ list.old.items ++ names_in queue.now.items) }
{
    for at in 0..queue.size() {
        if let Some(item) = queue.item(at) {
            item.push_reference(list)?;
        }
    }
    Ok(())
}
