//! What an object holds.
ghost use Rattle.std.specs.Prelude.{◌≡◌, ◌<◌, ◌≤◌, ◌*◌, ◌^◌, ◌-◌, min, IfOk, OnOk, OnErr, option_copied};
ghost use Rattle.gem_object.specs.Edits.{plain_slots, body_bytes, with_slot, with_byte, with_slot_more, without_slot, slot_at, value_at, with_value_at, without_value_at};
ghost use Rattle.gem_object.specs.Kinds.{is_shared};
ghost use Rattle.gem_object.specs.Slots.{slots_of, class_slots};

use crate::kind::Kind;
use crate::lists::{ByteString, Dictionary, Methods, Names, Values};
use crate::value::Value;
use gem_value::Oid;
use rc_counter_bag::{Bag, Counter};
use rc_dict::KeyDict;
use rc_queue::Queue;
use seg_rights::{Groups, Rights};
use std::alloc::AllocError;
use texts::Text;

/// What a method does.
#[derive(Debug, Drop)]
pub enum MethodCode {
    /// It is evaluated from this source.
    Source(Text),
    /// It is the primitive of this number.
    Primitive(u8),
}

impl Clone for MethodCode {
    ghost is_clone = { λ code copy. copy ≡ code };

    fn clone(&self) -> Result<MethodCode, AllocError> {
        Ok(match self {
            MethodCode::Source(source) => MethodCode::Source(source.clone()?),
            MethodCode::Primitive(number) => MethodCode::Primitive(*number),
        })
    }
}

/// A method of a class.
#[derive(Debug, Drop)]
pub struct Method {
    /// The message that it answers.
    pub selector: Text,
    /// What it does.
    pub code: MethodCode,
}

impl Clone for Method {
    ghost is_clone = { λ method copy. copy ≡ method };

    fn clone(&self) -> Result<Method, AllocError> {
        Ok(Method {
            selector: self.selector.clone()?,
            code: self.code.clone()?,
        })
    }
}

/// A class.
#[derive(Debug, Drop)]
pub struct ClassBody {
    pub name: Text,
    pub superclass: Option<Oid>,
    /// Which body its instances have.
    pub kind: Kind,
    /// The names of the instance variables that it adds to those of its superclass.
    pub names: Names,
    /// The methods of its instances, stored ascending by selector.
    pub methods: Methods,
    /// Its own methods, stored ascending by selector.
    pub class_methods: Methods,
}

impl Clone for ClassBody {
    ghost is_clone = { λ class copy. copy ≡ class };

    fn clone(&self) -> Result<ClassBody, AllocError> {
        Ok(ClassBody {
            name: self.name.clone()?,
            superclass: self.superclass,
            kind: self.kind,
            names: self.names.try_clone()?,
            methods: self.methods.try_clone()?,
            class_methods: self.class_methods.try_clone()?,
        })
    }
}

/// A user.
#[derive(Debug, Drop)]
pub struct UserBody {
    pub name: Text,
    /// The groups that the user is in, stored ascending.
    pub groups: Names,
    /// The segment in which the objects lie that the user makes.
    pub default_segment: Oid,
    /// The dictionary of the user's own globals.
    pub globals: Oid,
}

impl Clone for UserBody {
    ghost is_clone = { λ user copy. copy ≡ user };

    fn clone(&self) -> Result<UserBody, AllocError> {
        Ok(UserBody {
            name: self.name.clone()?,
            groups: self.groups.try_clone()?,
            default_segment: self.default_segment,
            globals: self.globals,
        })
    }
}

/// What an object holds.
#[derive(Debug)]
pub enum Body {
    /// Slots: the named ones first.
    Plain(Values),
    /// Bytes, as those of a string.
    Bytes(ByteString),
    /// Values by keys, in the order in which the keys were put.
    Dict(Dictionary),
    /// A class.
    Class(ClassBody),
    /// The rights that a segment gives. The owner is the number of the user's name.
    Segment(Rights<Text>),
    /// A user.
    User(UserBody),
    /// A counter whose updates are merged.
    Counter(Counter),
    /// A bag whose updates are merged.
    Bag(Bag<Value>),
    /// A dictionary whose updates are merged.
    RcDict(KeyDict<Value, Value>),
    /// A queue whose updates are merged.
    Queue(Queue<Value>),
}

// By hand, so that a drop is a call: one that is derived would stand in the proof of each function
// that drops a body, at each of its exits.
impl Drop for Body {
    fn drop(self) {
        match self {
            Body::Plain(_) => {}
            Body::Bytes(_) => {}
            Body::Dict(_) => {}
            Body::Class(_) => {}
            Body::Segment(_) => {}
            Body::User(_) => {}
            Body::Counter(_) => {}
            Body::Bag(_) => {}
            Body::RcDict(_) => {}
            Body::Queue(_) => {}
        }
    }
}

impl Body {
    /// Whether the object is a reduced-conflict one, whose updates are merged. It takes no memory.
    pub fn is_shared(&self) -> bool
        ensures { result ≡ is_shared self.now }
    {
        matches!(
            self,
            Body::Counter(_) | Body::Bag(_) | Body::RcDict(_) | Body::Queue(_)
        )
    }

    /// How many slots the body has. It stays at 2^64 - 1 once it is there, and takes no memory.
    pub fn slots(&self) -> u64
        ensures { result ≡ min (slots_of self.now) (2 ^ 64 - 1) }
    {
        match self {
            Body::Plain(values) => values.len() as u64,
            Body::Bytes(_) => 0,
            Body::Dict(pairs) => twice(pairs.len() as u64),
            Body::Class(class) => class_slots(class),
            Body::Segment(rights) => rights.groups.as_slice().len() as u64,
            Body::User(user) => user.groups.len() as u64,
            Body::Counter(_) => 0,
            Body::Bag(bag) => bag.size(),
            Body::RcDict(dict) => twice(dict.size()),
            Body::Queue(queue) => queue.size(),
        }
    }

    /// How many slots a Plain body has, and none of another kind. It takes no memory.
    pub fn plain_slots(&self) -> usize
        ensures { result ≡ plain_slots self.now }
    {
        match self {
            Body::Plain(values) => values.len(),
            _ => 0,
        }
    }

    /// How many bytes a Bytes body has, and none of another kind. It takes no memory.
    pub fn byte_count(&self) -> usize
        ensures { result ≡ body_bytes self.now }
    {
        match self {
            Body::Bytes(bytes) => bytes.len(),
            _ => 0,
        }
    }

    /// Puts a value in a slot of a Plain body, and changes nothing else. It takes no memory.
    pub fn set_slot(&mut self, at: usize, value: Value)
        requires { at < plain_slots self.old }
        ensures { self.new ≡ with_slot at value self.old }
    {
        if let Body::Plain(values) = self {
            values.set(at, value);
        }
    }

    /// Puts a slot with this value at a place of a Plain body; the slots from there on move up by
    /// one, and nothing else changes. Where it finds no memory the body is as before.
    pub fn insert_slot(&mut self, at: usize, value: Value) -> Result<(), AllocError>
        requires { at ≤ plain_slots self.old }
        ensures added { OnOk result (self.new ≡ with_slot_more at value self.old) }
        ensures unchanged { OnErr result (self.new ≡ self.old) }
    {
        if let Body::Plain(values) = self {
            values.insert(at, value)?;
        }
        Ok(())
    }

    /// Takes the slot at a place of a Plain body away, and gives what it held; the slots after it
    /// move down by one, and nothing else changes. It takes no memory.
    pub fn remove_slot(&mut self, at: usize) -> Option<Value>
        requires { at < plain_slots self.old }
        ensures value { result ≡ slot_at at self.old }
        ensures rest { self.new ≡ without_slot at self.old }
    {
        match self {
            Body::Plain(values) => Some(values.remove(at)),
            _ => None,
        }
    }

    /// The value that a Dict body has at the key; None also where the body is of another kind. It
    /// takes no memory, and finds the key by its hash.
    #[tactic(auto, using(crate::proofs::Equality::same_entry))]
    pub fn value_at(&self, key: &Value) -> Option<&Value>
        ensures { option_copied result ≡ value_at key.now self.now }
    {
        match self {
            Body::Dict(pairs) => pairs.get(key),
            _ => None,
        }
    }

    /// Puts a value at a key of a Dict body, and gives the value that the key had: a key that is
    /// there keeps its place, and a new one comes last. A body of another kind stays as it is.
    /// Where it finds no memory, which only a new key needs, the body is as before.
    #[tactic(auto, using(crate::proofs::Equality::same_put, crate::proofs::Equality::same_entry))]
    pub fn put_at(&mut self, key: Value, value: Value) -> Result<Option<Value>, AllocError>
        ensures put { OnOk result (self.new ≡ with_value_at key value self.old) }
        ensures before { IfOk result (λ before. before ≡ value_at key self.old) }
        ensures unchanged { OnErr result (self.new ≡ self.old) }
    {
        match self {
            Body::Dict(pairs) => pairs.put(key, value),
            _ => Ok(None),
        }
    }

    /// Takes a key's pair away from a Dict body, and gives its value; the other pairs keep their
    /// order. A body of another kind stays as it is. It takes no memory.
    #[tactic(auto, using(crate::proofs::Equality::same_rest, crate::proofs::Equality::same_entry))]
    pub fn remove_at(&mut self, key: &Value) -> Option<Value>
        ensures value { result ≡ value_at key.now self.old }
        ensures without { self.new ≡ without_value_at key.now self.old }
    {
        match self {
            Body::Dict(pairs) => pairs.remove(key),
            _ => None,
        }
    }

    /// Puts a byte at a place of a Bytes body, and changes nothing else. It takes no memory.
    pub fn set_byte(&mut self, at: usize, byte: u8)
        requires { at < body_bytes self.old }
        ensures { self.new ≡ with_byte at byte self.old }
    {
        if let Body::Bytes(bytes) = self {
            bytes.set(at, byte);
        }
    }
}

// Two slots for each of so many pairs.
fn twice(pairs: u64) -> u64
    ensures { result ≡ min (2 * pairs) (2 ^ 64 - 1) }
{
    pairs.saturating_add(pairs)
}

// A slot for each name and each method.
fn class_slots(class: &ClassBody) -> u64
    ensures { result ≡ min (class_slots class.now) (2 ^ 64 - 1) }
{
    let methods = (class.methods.len() as u64).saturating_add(class.class_methods.len() as u64);
    methods.saturating_add(class.names.len() as u64)
}

impl Clone for Body {
    ghost is_clone = { λ body copy. copy ≡ body };

    fn clone(&self) -> Result<Body, AllocError> {
        Ok(match self {
            Body::Plain(values) => Body::Plain(values.try_clone()?),
            Body::Bytes(bytes) => Body::Bytes(bytes.try_clone()?),
            Body::Dict(pairs) => Body::Dict(pairs.try_clone()?),
            Body::Class(class) => Body::Class(class.clone()?),
            Body::Segment(rights) => Body::Segment(copy_rights(rights)?),
            Body::User(user) => Body::User(user.clone()?),
            Body::Counter(counter) => Body::Counter(*counter),
            Body::Bag(bag) => Body::Bag(bag.try_clone()?),
            Body::RcDict(dict) => Body::RcDict(dict.try_clone()?),
            Body::Queue(queue) => Body::Queue(queue.try_clone()?),
        })
    }
}

fn copy_rights(rights: &Rights<Text>) -> Result<Rights<Text>, AllocError>
    ensures { IfOk result (λ copy. copy ≡ rights.now) }
{
    Ok(Rights {
        owner: rights.owner,
        owner_right: rights.owner_right,
        groups: copy_groups(&rights.groups)?,
        world_right: rights.world_right,
    })
}

fn copy_groups(groups: &Groups<Text>) -> Result<Groups<Text>, AllocError>
    ensures { IfOk result (λ copy. copy ≡ groups.now) }
{
    groups.clone()
}
