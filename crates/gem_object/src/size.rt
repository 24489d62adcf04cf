//! How many bytes values, bodies and objects have where they are stored.
ghost use Rattle.std.specs.Prelude.{◌≡◌, ◌^◌, ◌-◌, ◌+◌, ℕ, min, sum_by};
ghost use Rattle.gem_object.specs.Sizes.{value_size, text_size, method_size, pair_size, grant_size, occurrences_size, class_size, user_size, fields_size, object_size};

use crate::body::{Body, ClassBody, Method, MethodCode, UserBody};
use crate::lists::Dictionary;
use crate::object::Object;
use crate::value::Value;
use rc_queue::Queue;
use seg_rights::Right;
use texts::Text;

// What stands in a body with a size of its own.
pub(crate) trait Encoded {
    ghost encoded_size: { Self → ℕ };

    // Its bytes. The number stays at 2^64 - 1 once it is there.
    fn size(&self) -> u64
        ensures { result ≡ min (encoded_size self.now) (2 ^ 64 - 1) };
}

impl Encoded for Text {
    ghost encoded_size = { text_size };

    fn size(&self) -> u64 {
        (self.bytes().len() as u64).saturating_add(2)
    }
}

impl Encoded for Value {
    ghost encoded_size = { value_size };

    fn size(&self) -> u64 {
        match self {
            Value::Nil => 1,
            Value::False => 1,
            Value::True => 1,
            Value::Int(_) => 9,
            Value::Char(_) => 2,
            Value::Sym(name) => name.size().saturating_add(1),
            Value::Ref(_) => 9,
            Value::Block(_) => 0,
        }
    }
}

impl Encoded for Method {
    ghost encoded_size = { method_size };

    fn size(&self) -> u64 {
        let code = match &self.code {
            MethodCode::Source(source) => (source.bytes().len() as u64).saturating_add(5),
            MethodCode::Primitive(_) => 2,
        };
        self.selector.size().saturating_add(code)
    }
}

impl Encoded for (Value, Value) {
    ghost encoded_size = { pair_size };

    fn size(&self) -> u64 {
        pair_bytes(&self.0, &self.1)
    }
}

impl Encoded for (Value, u64) {
    ghost encoded_size = { occurrences_size };

    fn size(&self) -> u64 {
        self.0.size().saturating_add(8)
    }
}

impl Encoded for (Text, Right) {
    ghost encoded_size = { grant_size };

    fn size(&self) -> u64 {
        self.0.size().saturating_add(1)
    }
}

impl Value {
    /// The bytes of the value where it is stored, and none of a block. The number stays at 2^64 - 1
    /// once it is there. It takes no memory.
    pub fn stored_bytes(&self) -> u64
        ensures { result ≡ min (value_size self.now) (2 ^ 64 - 1) }
    {
        self.size()
    }
}

impl Body {
    /// The bytes of the body's fields where it is stored, without its tag. The number stays at
    /// 2^64 - 1 once it is there. It takes no memory.
    pub fn size(&self) -> u64
        ensures { result ≡ min (fields_size self.now) (2 ^ 64 - 1) }
    {
        match self {
            Body::Plain(values) => total_size(values.as_slice()).saturating_add(4),
            Body::Bytes(bytes) => (bytes.len() as u64).saturating_add(4),
            Body::Dict(pairs) => pairs_size(pairs).saturating_add(4),
            Body::Class(class) => class_size(class),
            Body::Segment(rights) => total_size(rights.groups.as_slice()).saturating_add(12),
            Body::User(user) => user_size(user),
            Body::Counter(_) => 8,
            Body::Bag(bag) => total_size(bag.pairs()).saturating_add(4),
            Body::RcDict(dict) => total_size(dict.pairs()).saturating_add(4),
            Body::Queue(queue) => queue_size(queue).saturating_add(12),
        }
    }
}

impl Object {
    /// The bytes of the object where it is stored. The number stays at 2^64 - 1 once it is there.
    /// It takes no memory.
    pub fn size(&self) -> u64
        ensures { result ≡ min (object_size self.now) (2 ^ 64 - 1) }
    {
        self.body.size().saturating_add(17)
    }
}

// The bytes of all items, one after the other.
fn total_size<T: Encoded>(items: &[T]) -> u64
    ensures { result ≡ min (sum_by T.encoded_size items.now) (2 ^ 64 - 1) }
{
    let mut sum = 0u64;
    for item in items {
        sum = sum.saturating_add(item.size());
    }
    sum
}

fn class_size(class: &ClassBody) -> u64
    ensures { result ≡ min (class_size class.now) (2 ^ 64 - 1) }
{
    let head = class.name.size().saturating_add(15);
    let names = head.saturating_add(total_size(class.names.as_slice()));
    let methods = names.saturating_add(total_size(class.methods.as_slice()));
    methods.saturating_add(total_size(class.class_methods.as_slice()))
}

fn user_size(user: &UserBody) -> u64
    ensures { result ≡ min (user_size user.now) (2 ^ 64 - 1) }
{
    let head = user.name.size().saturating_add(18);
    head.saturating_add(total_size(user.groups.as_slice()))
}

// The bytes of a key and of its value.
fn pair_bytes(key: &Value, value: &Value) -> u64
    ensures { result ≡ min (pair_size (key.now, value.now)) (2 ^ 64 - 1) }
{
    key.size().saturating_add(value.size())
}

// The bytes of all pairs, one after the other.
fn pairs_size(pairs: &Dictionary) -> u64
    ensures { result ≡ min (sum_by pair_size pairs.now) (2 ^ 64 - 1) }
{
    let mut sum = 0u64;
    for at in 0..pairs.len() {
        if let Some((key, value)) = pairs.pair(at) {
            sum = sum.saturating_add(pair_bytes(key, value));
        }
    }
    sum
}

// The bytes of the items that wait.
fn queue_size(queue: &Queue<Value>) -> u64
    ensures { result ≡ min (sum_by value_size queue.now.items) (2 ^ 64 - 1) }
{
    let mut sum = 0u64;
    for at in 0..queue.size() {
        if let Some(item) = queue.item(at) {
            sum = sum.saturating_add(item.size());
        }
    }
    sum
}
