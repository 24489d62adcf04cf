// Objects that are put into the image of the kernel.
ghost use Rattle.std.specs.Prelude.{◌≡◌, ◌<◌, ◌≤◌, ◌^◌, length, All, IfOk};
ghost use Rattle.gem_object.specs.Spelling.{IsOid, IsText, IsSource, IsMethod, IsClass, IsSpelledBody, IsSpelled};

use gem_object::{
    Body, ClassBody, Groups, Kind, Method, MethodCode, Methods, Names, Object, Oid, Right, Rights,
    Text, UserBody, Values,
};
use gem_sound::names::{CLASS_CLASS, KERNEL_SERIAL, SYSTEM_SEGMENT};
use std::alloc::{AllocError, Global};

pub(crate) fn name(counter: u32) -> Oid
    requires { counter < 2 ^ 24 }
    ensures number { result ≡ counter }
    ensures is_oid { IsOid result }
{
    Oid::from_parts(KERNEL_SERIAL, counter)
}

fn object(class: u32, segment: u32, body: Body) -> Object
    requires class { class < 2 ^ 24 }
    requires segment { segment < 2 ^ 24 }
    requires body { IsSpelledBody body }
    ensures { IsSpelled result }
{
    Object {
        class: name(class),
        segment: name(segment),
        changed: 0,
        body,
    }
}

/// An object without slots.
pub(crate) fn plain(alloc: Global, class: u32, segment: u32) -> Object
    requires class { class < 2 ^ 24 }
    requires segment { segment < 2 ^ 24 }
    ensures { IsSpelled result }
{
    object(class, segment, Body::Plain(Values::of(Vec::new(alloc))))
}

/// A segment that lies in SystemSegment.
pub(crate) fn segment(alloc: Global, class: u32, owner: u32) -> Object
    requires class { class < 2 ^ 24 }
    ensures { IsSpelled result }
{
    let rights = Rights {
        owner: u64::from(owner),
        owner_right: Right::Write,
        groups: Groups::from(Vec::new(alloc)),
        world_right: Right::Read,
    };
    object(class, SYSTEM_SEGMENT, Body::Segment(rights))
}

fn short(alloc: Global) -> Result<Text, AllocError>
    ensures { IfOk result IsText }
{
    Text::copy_of(alloc, b"a")
}

/// So many names.
pub(crate) fn names(alloc: Global, count: usize) -> Result<Names, AllocError>
    requires { count < 2 ^ 16 }
    ensures count { IfOk result (λ names. length names < 2 ^ 16) }
    ensures texts { IfOk result (All IsText) }
{
    let mut names = Vec::new(alloc);
    for _turn in 0..count {
        names.push(short(alloc)?)?;
    }
    Ok(Names::of(names))
}

fn class_object(class: ClassBody) -> Object
    requires { IsClass class }
    ensures { IsSpelled result }
{
    object(CLASS_CLASS, SYSTEM_SEGMENT, Body::Class(class))
}

/// A class without methods, of this superclass and kind and with these names.
pub(crate) fn class(
    alloc: Global,
    superclass: u32,
    kind: Kind,
    names: Names,
) -> Result<Object, AllocError>
    requires some { 0 < superclass }
    requires superclass { superclass < 2 ^ 24 }
    requires count { length names < 2 ^ 16 }
    requires texts { All IsText names }
    ensures { IfOk result IsSpelled }
{
    Ok(class_object(ClassBody {
        name: short(alloc)?,
        superclass: Some(name(superclass)),
        kind,
        names,
        methods: Methods::of(Vec::new(alloc)),
        class_methods: Methods::of(Vec::new(alloc)),
    }))
}

/// A class under Object with one method.
pub(crate) fn class_with(alloc: Global, method: Method) -> Result<Object, AllocError>
    requires { IsMethod method }
    ensures { IfOk result IsSpelled }
{
    Ok(class_object(ClassBody {
        name: short(alloc)?,
        superclass: Some(name(1)),
        kind: Kind::Plain,
        names: Names::of(Vec::new(alloc)),
        methods: Methods::of(vec![in alloc; method]?),
        class_methods: Methods::of(Vec::new(alloc)),
    }))
}

/// The method `a` of this source.
pub(crate) fn sourced(alloc: Global, source: &'static [u8]) -> Result<Method, AllocError>
    requires { IsSource source.now }
    ensures { IfOk result IsMethod }
{
    Ok(Method {
        selector: short(alloc)?,
        code: MethodCode::Source(Text::copy_of(alloc, source)?),
    })
}

/// The method `class` that is the primitive of Object.
pub(crate) fn primitive(alloc: Global) -> Result<Method, AllocError>
    ensures { IfOk result IsMethod }
{
    Ok(Method {
        selector: Text::copy_of(alloc, b"class")?,
        code: MethodCode::Primitive(3),
    })
}

/// A user with this default segment and these globals, who lies in SystemSegment.
pub(crate) fn user(alloc: Global, segment: u32, globals: u32) -> Result<Object, AllocError>
    requires segment { segment < 2 ^ 24 }
    requires globals { globals < 2 ^ 24 }
    ensures { IfOk result IsSpelled }
{
    let user = UserBody {
        name: short(alloc)?,
        groups: Names::of(Vec::new(alloc)),
        default_segment: name(segment),
        globals: name(globals),
    };
    Ok(object(24, SYSTEM_SEGMENT, Body::User(user)))
}
