//! Which values and bodies can be stored, as tests. None takes memory.
ghost use Rattle.std.specs.Prelude.{◌≡◌, ◌&&◌, ◌^◌, nat_lt, length, map};
ghost use Rattle.std.specs.List.{list_all};
ghost use Rattle.std.specs.Cmp.Lexicographic.{slice_cmp};
ghost use Rattle.gem_object.specs.texts.Bytes.{Bytes};
ghost use Rattle.object_programs.specs.Spelled.{is_plain_byte, is_oid, is_text, texts_ascend, is_storable, are_storable, is_storable_pair, is_dictionary_body, is_code, is_method, are_methods, is_superclass, is_class_body, is_given, is_segment_body, is_user_body, occurs, are_items, is_key_dictionary, is_spelled};
ghost use Rattle.running_objects.specs.Fitting.{can_count};
ghost use Rattle.object_guard.specs.Spelled.{is_entry, is_key_pair, is_item};

use gem_object::{
    Bag, Body, ClassBody, Dictionary, KeyDict, Method, MethodCode, Oid, Queue, Right, Rights,
    SYMBOL_LIMIT, Text, UserBody, Value, is_small_integer,
};

/// Where a list of values, pairs or bytes is stored it has fewer items than this.
const COUNT_LIMIT: usize = 1 << 32;

/// Where a list of names, methods or groups is stored it has fewer items than this.
const NAMES_COUNT_LIMIT: usize = 1 << 16;

/// Whether every byte is below 128.
fn are_plain(bytes: &[u8]) -> bool
    ensures { result ≡ list_all is_plain_byte bytes.now }
{
    bytes.iter().all(|byte| *byte < 128)
}

/// Whether the text can be stored: it has at most 1,000 bytes, each below 128.
fn is_text(text: &Text) -> bool
    ensures { result ≡ is_text text.now }
{
    text.bytes().len() <= SYMBOL_LIMIT && are_plain(text.bytes())
}

/// Whether the value can be stored: it is no block, its integer is one of the language's, and what
/// it has of bytes is below 128. It takes no memory.
pub fn is_storable(value: &Value) -> bool
    ensures { result ≡ is_storable value.now }
{
    match value {
        Value::Nil => true,
        Value::False => true,
        Value::True => true,
        Value::Int(number) => is_small_integer(*number),
        Value::Char(code) => *code < 128,
        Value::Sym(name) => is_text(name),
        Value::Ref(oid) => oid.number() < 1 << 48,
        Value::Block(_) => false,
    }
}

/// Whether the body can be stored: what it holds can be, it has no more of it than can be counted
/// there, and what has to ascend does. It takes no memory, and goes through what the body holds at
/// most three times: what a body's type holds of its keys isn't tested again.
#[tactic(auto, unfolding(object_programs::specs::Spelled::is_spelled))]
pub fn is_spelled(body: &Body) -> bool
    ensures { result ≡ is_spelled body.now }
{
    match body {
        Body::Plain(values) => are_storable(values.as_slice()),
        Body::Bytes(bytes) => bytes.len() < COUNT_LIMIT && are_plain(bytes.as_slice()),
        Body::Dict(pairs) => is_dictionary(pairs),
        Body::Class(class) => is_class(class),
        Body::Segment(rights) => is_segment(rights),
        Body::User(user) => is_user(user),
        Body::Counter(counter) => is_small_integer(counter.value),
        Body::Bag(bag) => is_bag(bag),
        Body::RcDict(dict) => is_key_dictionary(dict),
        Body::Queue(queue) => is_queue(queue),
    }
}

fn are_storable(values: &[Value]) -> bool
    ensures { result ≡ are_storable values.now }
{
    values.len() < COUNT_LIMIT && all_storable(values)
}

fn all_storable(values: &[Value]) -> bool
    ensures { result ≡ list_all is_storable values.now }
{
    values.iter().all(|value| is_storable(value))
}

// Whether a key and its value can stand in a dictionary.
fn is_entry(key: &Value, value: &Value) -> bool
    ensures { result ≡ is_entry (key.now, value.now) }
{
    is_storable(key) && is_storable(value) && !matches!(key, Value::Nil)
}

fn are_entries(pairs: &Dictionary) -> bool
    ensures { result ≡ list_all is_entry pairs.now }
{
    for at in 0..pairs.len() {
        let Some(pair) = pairs.pair(at) else {
            return true;
        };
        if !is_entry(pair.0, pair.1) {
            return false;
        }
    }
    true
}

// That its keys differ holds of every dictionary.
fn is_dictionary(pairs: &Dictionary) -> bool
    ensures { result ≡ is_dictionary_body pairs.now }
{
    pairs.len() < COUNT_LIMIT && are_entries(pairs)
}

// Something with a text by which it is sorted.
trait Named {
    ghost text: { Self → Bytes };

    fn text(&self) -> &Text
        ensures { result.now ≡ text self.now };
}

impl Named for Text {
    ghost text = { λ text. text };

    fn text(&self) -> &Text {
        self
    }
}

impl Named for Method {
    ghost text = { λ method. method.selector };

    fn text(&self) -> &Text {
        &self.selector
    }
}

impl Named for (Text, Right) {
    ghost text = { λ group. group.0 };

    fn text(&self) -> &Text {
        &self.0
    }
}

// Whether each of the texts is below the one after it.
fn ascend<T: Named>(items: &[T]) -> bool
    ensures { result ≡ texts_ascend (map T.text items.now) }
{
    let Some((first, others)) = items.split_first() else {
        return true;
    };
    let mut last = first;
    let mut rest = others;
    while let Some((next, more)) = rest.split_first() {
        if !last.text().cmp(next.text()).is_lt() {
            return false;
        }
        last = next;
        rest = more;
    }
    true
}

fn is_code(code: &MethodCode) -> bool
    ensures { result ≡ is_code code.now }
{
    match code {
        MethodCode::Source(source) => {
            source.bytes().len() < COUNT_LIMIT && are_plain(source.bytes())
        }
        MethodCode::Primitive(number) => {
            let _number = *number;
            true
        }
    }
}

fn is_method(method: &Method) -> bool
    ensures { result ≡ is_method method.now }
{
    is_text(&method.selector) && is_code(&method.code)
}

fn are_methods(methods: &[Method]) -> bool
    ensures { result ≡ are_methods methods.now }
{
    methods.len() < NAMES_COUNT_LIMIT && all_methods(methods) && ascend(methods)
}

fn all_methods(methods: &[Method]) -> bool
    ensures { result ≡ list_all is_method methods.now }
{
    methods.iter().all(|method| is_method(method))
}

fn is_superclass(superclass: Option<Oid>) -> bool
    ensures { result ≡ is_superclass superclass }
{
    match superclass {
        Some(name) => 0 < name.number() && name.number() < 1 << 48,
        None => true,
    }
}

fn are_texts(texts: &[Text]) -> bool
    ensures { result ≡ (nat_lt (length texts.now) 65536 && list_all is_text texts.now) }
{
    texts.len() < NAMES_COUNT_LIMIT && all_texts(texts)
}

fn all_texts(texts: &[Text]) -> bool
    ensures { result ≡ list_all is_text texts.now }
{
    texts.iter().all(|text| is_text(text))
}

fn is_class(class: &ClassBody) -> bool
    ensures { result ≡ is_class_body class.now }
{
    is_text(&class.name)
        && is_superclass(class.superclass)
        && are_texts(class.names.as_slice())
        && are_methods(class.methods.as_slice())
        && are_methods(class.class_methods.as_slice())
}

fn is_given(right: Right) -> bool
    ensures { result ≡ is_given right }
{
    match right {
        Right::None => false,
        Right::Read => true,
        Right::Write => true,
    }
}

fn all_named(groups: &[(Text, Right)]) -> bool
    ensures { result ≡ list_all (λ group. is_text group.0) groups.now }
{
    groups.iter().all(|group| is_text(&group.0))
}

fn all_given(groups: &[(Text, Right)]) -> bool
    ensures { result ≡ list_all (λ group. is_given group.1) groups.now }
{
    groups.iter().all(|group| is_given(group.1))
}

fn is_segment(rights: &Rights<Text>) -> bool
    ensures { result ≡ is_segment_body rights.now }
{
    let groups = rights.groups.as_slice();
    rights.owner < 1 << 48
        && groups.len() < NAMES_COUNT_LIMIT
        && all_named(groups)
        && ascend(groups)
        && all_given(groups)
}

fn is_user(user: &UserBody) -> bool
    ensures { result ≡ is_user_body user.now }
{
    is_text(&user.name)
        && are_texts(user.groups.as_slice())
        && ascend(user.groups.as_slice())
        && user.default_segment.number() < 1 << 48
        && user.globals.number() < 1 << 48
}

fn is_item(pair: &(Value, u64)) -> bool
    ensures { result ≡ is_item pair.now }
{
    pair.1 > 0 && is_storable(&pair.0)
}

// That its items ascend holds of every bag.
fn is_bag(bag: &Bag<Value>) -> bool
    ensures { result ≡ are_items bag.now }
{
    let pairs = bag.pairs();
    pairs.len() < COUNT_LIMIT && all_items(pairs)
}

fn all_items(pairs: &[(Value, u64)]) -> bool
    ensures { result ≡ list_all is_item pairs.now }
{
    pairs.iter().all(|pair| is_item(pair))
}

fn is_key_pair(pair: &(Value, Value)) -> bool
    ensures { result ≡ is_key_pair pair.now }
{
    is_storable(&pair.0) && is_storable(&pair.1) && pair.0.is_key()
}

// That its keys ascend holds of every such dictionary.
fn is_key_dictionary(dict: &KeyDict<Value, Value>) -> bool
    ensures { result ≡ is_key_dictionary dict.now }
{
    let pairs = dict.pairs();
    pairs.len() < COUNT_LIMIT && all_key_pairs(pairs)
}

fn all_key_pairs(pairs: &[(Value, Value)]) -> bool
    ensures { result ≡ list_all is_key_pair pairs.now }
{
    pairs.iter().all(|pair| is_key_pair(pair))
}

fn are_waiting(queue: &Queue<Value>) -> bool
    ensures { result ≡ list_all is_storable queue.now.items }
{
    for at in 0..queue.size() {
        let Some(item) = queue.item(at) else {
            return true;
        };
        if !is_storable(item) {
            return false;
        }
    }
    true
}

fn is_queue(queue: &Queue<Value>) -> bool
    ensures { result ≡ (nat_lt queue.now.removed (2 ^ 64) && are_storable queue.now.items) }
{
    let _removed = queue.removed();
    queue.size() < COUNT_LIMIT as u64 && are_waiting(queue)
}
