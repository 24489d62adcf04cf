// Slots, sizes and references of each body, the order of values, and each change of a place.
use gem_object::{
    Bag, BlockRef, Body, ByteString, ClassBody, Counter, Dictionary, Groups, KeyDict, Kind, Method,
    MethodCode, Methods, Names, Object, Oid, Queue, Right, Rights, Text, UserBody, Value, Values,
};
use std::alloc::{AllocError, Global};
use std::process::Abort;
use std::test::Fail;

pub(crate) fn text(alloc: Global, bytes: &[u8]) -> Result<Text, Fail> {
    Ok(Text::copy_of(alloc, bytes)?)
}

fn symbol(alloc: Global, bytes: &[u8]) -> Result<Value, Fail> {
    Ok(Value::Sym(text(alloc, bytes)?))
}

pub(crate) fn plain(alloc: Global) -> Result<Body, Fail> {
    let abc = symbol(alloc, b"abc")?;
    let two = Value::Ref(Oid::from_parts(1, 2));
    let values = vec![in alloc; Value::Nil, Value::Int(3), Value::Char(97), abc, two]?;
    Ok(Body::Plain(Values::of(values)))
}

// Puts a value at a symbol.
fn put_at_symbol(
    alloc: Global,
    pairs: &mut Dictionary,
    bytes: &[u8],
    value: Value,
) -> Result<(), Fail> {
    pairs.put(symbol(alloc, bytes)?, value)?;
    Ok(())
}

pub(crate) fn dict(alloc: Global) -> Result<Body, Fail> {
    let mut pairs = Dictionary::new(alloc);
    put_at_symbol(alloc, &mut pairs, b"a", Value::Int(9))?;
    put_at_symbol(alloc, &mut pairs, b"bc", Value::True)?;
    Ok(Body::Dict(pairs))
}

fn names(alloc: Global, first: &[u8], second: &[u8]) -> Result<Names, Fail> {
    Ok(Names::of(vec![in alloc; text(alloc, first)?, text(alloc, second)?]?))
}

// One method.
fn method(alloc: Global, selector: &[u8], code: MethodCode) -> Result<Methods, Fail> {
    let selector = text(alloc, selector)?;
    Ok(Methods::of(vec![in alloc; Method { selector, code }]?))
}

fn sourced(alloc: Global) -> Result<Methods, Fail> {
    method(
        alloc,
        b"half",
        MethodCode::Source(text(alloc, b"half ^a //")?),
    )
}

pub(crate) fn class(alloc: Global) -> Result<Body, Fail> {
    Ok(Body::Class(ClassBody {
        name: text(alloc, b"Box")?,
        superclass: Some(Oid::from_parts(0, 1)),
        kind: Kind::Plain,
        names: names(alloc, b"a", b"bc")?,
        methods: sourced(alloc)?,
        class_methods: method(alloc, b"new", MethodCode::Primitive(6))?,
    }))
}

pub(crate) fn segment(alloc: Global) -> Result<Body, Fail> {
    let readers = (text(alloc, b"Readers")?, Right::Read);
    let writers = (text(alloc, b"Writers")?, Right::Write);
    let groups = vec![in alloc; readers, writers]?;
    Ok(Body::Segment(Rights {
        owner: 31,
        owner_right: Right::Write,
        groups: Groups::from(groups),
        world_right: Right::Read,
    }))
}

pub(crate) fn user(alloc: Global) -> Result<Body, Fail> {
    Ok(Body::User(UserBody {
        name: text(alloc, b"DataCurator")?,
        groups: Names::of(vec![in alloc; text(alloc, b"Staff")?]?),
        default_segment: Oid::from_parts(0, 30),
        globals: Oid::from_parts(0, 34),
    }))
}

pub(crate) fn bag(alloc: Global, most: u64) -> Result<Option<Body>, Fail> {
    let a = symbol(alloc, b"a")?;
    let pairs = vec![in alloc; (Value::Int(3), most), (a, 1)]?;
    Ok(Bag::of_pairs(pairs).map(Body::Bag))
}

pub(crate) fn key_dict(alloc: Global) -> Result<Option<Body>, Fail> {
    let pairs = vec![in alloc; (symbol(alloc, b"a")?, Value::Nil)]?;
    Ok(KeyDict::of_pairs(pairs).map(Body::RcDict))
}

pub(crate) fn queue(alloc: Global) -> Result<Body, Fail> {
    let items = vec![in alloc; Value::True, Value::Int(5)]?;
    Ok(Body::Queue(Queue::of_items(2, items)))
}

fn object_of(body: Body) -> Object {
    Object {
        class: Oid::from_parts(0, 19),
        segment: Oid::from_parts(0, 30),
        changed: 3,
        body,
    }
}

// From this call a caller's proof learns nothing of the body, so it stays short.
fn fits(kind: Kind, body: &Body) -> bool {
    kind.fits(body)
}

fn has_number(kind: Kind, number: u8) -> bool {
    kind.number() == number
}

// Whether an object's body has so many slots and bytes in store, and its updates are merged.
fn has_sizes(object: &Object, slots: u64, bytes: u64, shared: bool) -> bool {
    object.body.slots() == slots
        && object.body.size() == bytes
        && Some(object.size()) == bytes.checked_add(17)
        && object.body.is_shared() == shared
}

// Whether a body fits a kind of this number, and a copy of its object has these sizes.
fn has(
    body: Body,
    kind: Kind,
    number: u8,
    slots: u64,
    bytes: u64,
    shared: bool,
) -> Result<bool, Fail> {
    let is_of_kind = has_number(kind, number) && fits(kind, &body) && !fits(Kind::None, &body);
    let copy = object_of(body).clone()?;
    Ok(is_of_kind && has_sizes(&copy, slots, bytes, shared))
}

fn some_has(
    body: Option<Body>,
    kind: Kind,
    number: u8,
    slots: u64,
    bytes: u64,
    shared: bool,
) -> Result<bool, Fail> {
    match body {
        Some(body) => has(body, kind, number, slots, bytes, shared),
        None => Ok(false),
    }
}

#[test]
fn bodies_of_values(rt: HostRuntime) -> Result<(), Fail> {
    let alloc = rt.alloc();
    assert!(rt; has(plain(alloc)?, Kind::Plain, 1, 5, 31, false)?);
    assert!(rt; has(plain(alloc)?, Kind::Indexed, 2, 5, 31, false)?);
    let name = ByteString::of(b"Box".as_slice().to_vec(alloc)?);
    assert!(rt; has(Body::Bytes(name), Kind::Bytes, 3, 0, 7, false)?);
    assert!(rt; has(dict(alloc)?, Kind::Dict, 4, 4, 23, false)?);
    Ok(())
}

#[test]
fn bodies_of_administration(rt: HostRuntime) -> Result<(), Fail> {
    let alloc = rt.alloc();
    assert!(rt; has(segment(alloc)?, Kind::Segment, 5, 2, 32, false)?);
    assert!(rt; has(user(alloc)?, Kind::User, 6, 1, 38, false)?);
    Ok(())
}

#[test]
fn merged_bodies(rt: HostRuntime) -> Result<(), Fail> {
    let alloc = rt.alloc();
    let counter = Body::Counter(Counter { value: 20 });
    assert!(rt; has(counter, Kind::Counter, 7, 0, 8, true)?);
    assert!(rt; some_has(bag(alloc, 2)?, Kind::Bag, 8, 3, 33, true)?);
    assert!(rt; some_has(bag(alloc, u64::MAX)?, Kind::Bag, 8, u64::MAX, 33, true)?);
    assert!(rt; some_has(key_dict(alloc)?, Kind::RcDict, 9, 2, 9, true)?);
    assert!(rt; has(queue(alloc)?, Kind::Queue, 10, 2, 22, true)?);
    Ok(())
}

#[test]
fn body_of_a_class(rt: HostRuntime) -> Result<(), Fail> {
    let body = class(rt.alloc())?.clone()?;
    assert_eq!(rt; body.slots(), 4);
    assert_eq!(rt; body.size(), 55);
    assert!(rt; !body.is_shared() && !fits(Kind::None, &body) && !fits(Kind::Plain, &body));
    Ok(())
}

// Whether a value is below the next one, and a copy of it is the same.
fn ascend(value: Value, next: Value) -> Result<bool, Fail> {
    Ok(value < next && value != next && value.clone()? == value)
}

fn symbols_ascend(alloc: Global, bytes: &[u8], next: &[u8]) -> Result<bool, Fail> {
    ascend(symbol(alloc, bytes)?, symbol(alloc, next)?)
}

#[test]
fn order_of_values(rt: HostRuntime) -> Result<(), Fail> {
    assert!(rt; ascend(Value::Nil, Value::False)?);
    assert!(rt; ascend(Value::False, Value::True)?);
    assert!(rt; ascend(Value::True, Value::Int(-1))?);
    assert!(rt; ascend(Value::Int(-1), Value::Int(300))?);
    assert!(rt; ascend(Value::Int(300), Value::Char(7))?);
    Ok(())
}

#[test]
fn order_of_symbols(rt: HostRuntime) -> Result<(), Fail> {
    let alloc = rt.alloc();
    assert!(rt; ascend(Value::Char(7), symbol(alloc, b"B")?)?);
    assert!(rt; symbols_ascend(alloc, b"B", b"Ba")?);
    assert!(rt; symbols_ascend(alloc, b"Ba", b"a")?);
    assert!(rt; ascend(symbol(alloc, b"a")?, Value::Ref(Oid::from_parts(0, 27)))?);
    Ok(())
}

#[test]
fn order_of_references(rt: HostRuntime) -> Result<(), Fail> {
    let reference = Value::Ref(Oid::from_parts(1, 1));
    assert!(rt; ascend(Value::Ref(Oid::from_parts(0, 27)), reference)?);
    let block = Value::Block(BlockRef {
        number: 0,
        params: 1,
    });
    assert!(rt; ascend(Value::Ref(Oid::from_parts(1, 1)), block)?);
    Ok(())
}

#[test]
fn references(rt: HostRuntime) {
    let oid = Oid::from_parts(0, 27);
    assert_eq!(rt; Value::Ref(oid).reference(), Some(oid));
    assert_eq!(rt; Value::Int(27).reference(), None);
}

fn changed_slots(alloc: Global) -> Result<Body, Fail> {
    let mut body = Body::Plain(Values::of(vec![in alloc; Value::Nil, Value::True]?));
    body.set_slot(1, Value::Int(4));
    body.insert_slot(1, Value::Int(3))?;
    body.insert_slot(3, Value::Int(5))?;
    body.remove_slot(0);
    Ok(body)
}

fn changed_bytes(alloc: Global) -> Result<Body, Fail> {
    let mut body = Body::Bytes(ByteString::of(b"cat".as_slice().to_vec(alloc)?));
    body.set_byte(0, b'h');
    Ok(body)
}

fn has_slots(body: &Body, values: &[Value]) -> bool {
    match body {
        Body::Plain(slots) => slots.as_slice() == values,
        _ => false,
    }
}

fn has_bytes(body: &Body, bytes: &[u8]) -> bool {
    match body {
        Body::Bytes(text) => text.as_slice() == bytes,
        _ => false,
    }
}

#[test]
fn changes_of_slots(rt: HostRuntime) -> Result<(), Fail> {
    let slots = changed_slots(rt.alloc())?;
    let left = [Value::Int(3), Value::Int(4), Value::Int(5)];
    assert!(rt; has_slots(&slots, &left));
    Ok(())
}

#[test]
fn changes_of_bytes(rt: HostRuntime) -> Result<(), Fail> {
    let bytes = changed_bytes(rt.alloc())?;
    assert!(rt; has_bytes(&bytes, b"hat"));
    Ok(())
}

// This one, too, tells a caller's proof nothing.
fn put(body: &mut Body, key: Value, number: i64) -> Result<Option<Value>, AllocError> {
    body.put_at(key, Value::Int(number))
}

fn is_integer(value: &Option<Value>, want: Option<i64>) -> bool {
    match (value, want) {
        (Some(Value::Int(number)), Some(want)) => *number == want,
        (None, None) => true,
        _ => false,
    }
}

// Whether an integer is put at a key that had this one.
fn puts(body: &mut Body, key: &Value, number: i64, had: Option<i64>) -> Result<bool, Fail> {
    let before = put(body, key.clone()?, number)?;
    Ok(is_integer(&before, had))
}

fn has_at(body: &Body, key: &Value, number: i64) -> bool {
    body.value_at(key) == Some(&Value::Int(number))
}

fn check_puts<R: Abort>(
    rt: &R,
    body: &mut Body,
    first: &Value,
    second: &Value,
) -> Result<(), Fail> {
    assert!(rt; puts(body, first, 1, None)?);
    assert!(rt; puts(body, second, 2, None)?);
    assert!(rt; puts(body, first, 3, Some(1))?);
    assert!(rt; has_at(body, first, 3));
    Ok(())
}

fn check_removal<R: Abort>(rt: &R, body: &mut Body, first: &Value, second: &Value) {
    assert!(rt; body.remove_at(first) == Some(Value::Int(3)));
    assert!(rt; body.value_at(first).is_none() && body.slots() == 2);
    assert!(rt; has_at(body, second, 2));
}

#[test]
fn changes_of_a_dictionary(rt: HostRuntime) -> Result<(), Fail> {
    let alloc = rt.alloc();
    let (first, second) = (symbol(alloc, b"a")?, Value::Ref(Oid::from_parts(1, 1)));
    let mut body = Body::Dict(Dictionary::new(alloc));
    check_puts(&rt, &mut body, &first, &second)?;
    check_removal(&rt, &mut body, &first, &second);
    Ok(())
}

fn refers_to(alloc: Global, body: Body, names: &[u64]) -> Result<bool, Fail> {
    let object = object_of(body);
    let mut list = Vec::new(alloc);
    object.push_references(&mut list)?;
    Ok(list.as_slice() == names)
}

fn reference(counter: u8) -> Value {
    Value::Ref(Oid::from_parts(1, counter as u32))
}

// A dictionary, a bag and a queue with references in them; of a dictionary whose updates are merged
// only the values can be some.
fn dict_of_references(alloc: Global) -> Result<Body, Fail> {
    let mut pairs = Dictionary::new(alloc);
    pairs.put(reference(2), reference(1))?;
    pairs.put(Value::Int(9), reference(3))?;
    Ok(Body::Dict(pairs))
}

fn bag_of_references(alloc: Global) -> Result<Option<Body>, Fail> {
    let pairs = vec![in alloc; (reference(4), 7)]?;
    Ok(Bag::of_pairs(pairs).map(Body::Bag))
}

fn key_dict_of_references(alloc: Global) -> Result<Option<Body>, Fail> {
    let pairs = vec![in alloc; (Value::Int(1), reference(5))]?;
    Ok(KeyDict::of_pairs(pairs).map(Body::RcDict))
}

fn some_refers_to(alloc: Global, body: Option<Body>, names: &[u64]) -> Result<bool, Fail> {
    match body {
        Some(body) => refers_to(alloc, body, names),
        None => Ok(false),
    }
}

fn queue_of_references(alloc: Global) -> Result<Body, Fail> {
    let items = vec![in alloc; reference(6), Value::Nil]?;
    Ok(Body::Queue(Queue::of_items(2, items)))
}

#[test]
fn references_of_values(rt: HostRuntime) -> Result<(), Fail> {
    let alloc = rt.alloc();
    assert!(rt; refers_to(alloc, plain(alloc)?, &[19, 30, 16_777_218])?);
    let names = [19, 30, 16_777_218, 16_777_217, 16_777_219];
    assert!(rt; refers_to(alloc, dict_of_references(alloc)?, &names)?);
    Ok(())
}

#[test]
fn references_of_classes(rt: HostRuntime) -> Result<(), Fail> {
    let alloc = rt.alloc();
    assert!(rt; refers_to(alloc, class(alloc)?, &[19, 30, 1])?);
    Ok(())
}

#[test]
fn references_of_administration(rt: HostRuntime) -> Result<(), Fail> {
    let alloc = rt.alloc();
    assert!(rt; refers_to(alloc, segment(alloc)?, &[19, 30, 31])?);
    assert!(rt; refers_to(alloc, user(alloc)?, &[19, 30, 30, 34])?);
    Ok(())
}

#[test]
fn references_of_merged_bodies(rt: HostRuntime) -> Result<(), Fail> {
    let alloc = rt.alloc();
    assert!(rt; refers_to(alloc, Body::Counter(Counter { value: 27 }), &[19, 30])?);
    assert!(rt; some_refers_to(alloc, bag_of_references(alloc)?, &[19, 30, 16_777_220])?);
    Ok(())
}

#[test]
fn references_of_merged_values(rt: HostRuntime) -> Result<(), Fail> {
    let alloc = rt.alloc();
    assert!(rt; some_refers_to(alloc, key_dict_of_references(alloc)?, &[19, 30, 16_777_221])?);
    assert!(rt; refers_to(alloc, queue_of_references(alloc)?, &[19, 30, 16_777_222])?);
    Ok(())
}
