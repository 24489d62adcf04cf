//! Whether two objects have the same fixed part.
ghost use Rattle.std.specs.Prelude.{◌≡◌, bytes_eq, Some, option_map, option_copied};
ghost use Rattle.std.specs.Cmp.Lexicographic.{pointwise};
ghost use Rattle.object_programs.specs.Fixed.{body_kind, class_part, same_fixed, same_body_kind, same_number, same_part};
ghost use Rattle.object_guard.specs.Parts.{fixed_part, part_of_class};

use gem_object::{Body, ClassBody, Object, Oid, Text};

/// Whether two objects have the same fixed part: the same class and the same kind of body, and
/// where both are classes the same superclass, kind of instances and names. It takes no memory.
#[tactic(auto, unfolding(object_programs::specs::Fixed::same_fixed))]
pub fn same_fixed(object: &Object, other: &Object) -> bool
    ensures { result ≡ same_fixed (fixed_part object.now) (fixed_part other.now) }
{
    object.class == other.class
        && same_kind(&object.body, &other.body)
        && same_class(&object.body, &other.body)
}

fn same_kind(body: &Body, other: &Body) -> bool
    ensures { result ≡ same_body_kind (body_kind body.now) (body_kind other.now) }
{
    match body {
        Body::Plain(_) => matches!(other, Body::Plain(_)),
        Body::Bytes(_) => matches!(other, Body::Bytes(_)),
        Body::Dict(_) => matches!(other, Body::Dict(_)),
        Body::Class(_) => matches!(other, Body::Class(_)),
        Body::Segment(_) => matches!(other, Body::Segment(_)),
        Body::User(_) => matches!(other, Body::User(_)),
        Body::Counter(_) => matches!(other, Body::Counter(_)),
        Body::Bag(_) => matches!(other, Body::Bag(_)),
        Body::RcDict(_) => matches!(other, Body::RcDict(_)),
        Body::Queue(_) => matches!(other, Body::Queue(_)),
    }
}

fn same_class(body: &Body, other: &Body) -> bool
    ensures { result ≡ same_part (class_part body.now) (class_part other.now) }
{
    match (body_class(body), body_class(other)) {
        (Some(class), Some(other)) => same_part(class, other),
        (None, None) => true,
        _ => false,
    }
}

fn body_class(body: &Body) -> Option<&ClassBody>
    ensures { option_map part_of_class (option_copied result) ≡ class_part body.now }
{
    match body {
        Body::Class(class) => Some(class),
        _ => None,
    }
}

fn same_part(class: &ClassBody, other: &ClassBody) -> bool
    ensures { result
        ≡ same_part (Some (part_of_class class.now)) (Some (part_of_class other.now)) }
{
    same_number(class.superclass, other.superclass)
        && class.kind.number() == other.kind.number()
        && same_names(class.names.as_slice(), other.names.as_slice())
}

fn same_number(number: Option<Oid>, other: Option<Oid>) -> bool
    ensures { result ≡ same_number number other }
{
    match (number, other) {
        (None, None) => true,
        (Some(number), Some(other)) => number.number() == other.number(),
        _ => false,
    }
}

fn same_names(names: &[Text], others: &[Text]) -> bool
    ensures { result ≡ pointwise bytes_eq names.now others.now }
{
    names == others
}
