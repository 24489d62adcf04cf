// Images over which objects are put, and the rights of users in them.
ghost use Rattle.std.specs.Prelude.{◌≡◌, ◌≢◌, ◌+◌, ◌^◌, ◌<◌, ◌≤◌, length, All, IfOk};
ghost use Rattle.gem_object.specs.Spelling.{IsOid, IsText, IsSpelled};

use gem_image::Image;
use gem_object::{Body, Groups, Names, Object, Oid, Right, Rights, Text, UserBody, Values};
use radix_pages::Steps;
use std::alloc::{AllocError, Global};
use std::marker::Brand;
use std::process::Abort;
use std::sync::ledger::{Blank, Ledger};
use std::test::Fail;

const OWNER: u32 = 1;

const MEMBER: u32 = 2;

const STRANGER: u32 = 3;

const SEGMENT: u32 = 4;

const BOX: u32 = 5;

const NOTHING: u32 = 6;

fn name(counter: u32) -> Oid
    requires { counter < 2 ^ 24 }
    ensures { IsOid result }
{
    Oid::from_parts(1, counter)
}

/// The greatest name that there is.
fn greatest() -> Oid
    ensures { IsOid result }
{
    Oid::from_parts((1 << 24) - 1, (1 << 24) - 1)
}

/// An object without slots.
fn plain(alloc: Global, class: u32, segment: u32) -> Object
    requires class { class < 2 ^ 24 }
    requires segment { segment < 2 ^ 24 }
    ensures { IsSpelled result }
{
    Object {
        class: name(class),
        segment: name(segment),
        changed: 0,
        body: Body::Plain(Values::of(Vec::new(alloc))),
    }
}

fn staff(alloc: Global) -> Result<Text, AllocError>
    ensures { IfOk result IsText }
{
    Text::copy_of(alloc, b"Staff")
}

fn user(alloc: Global, groups: Vec<Text>) -> Result<Object, AllocError>
    requires count { length groups.items < 2 }
    requires groups { All IsText groups.items }
    ensures { IfOk result IsSpelled }
{
    let body = UserBody {
        name: staff(alloc)?,
        groups: Names::of(groups),
        default_segment: name(SEGMENT),
        globals: name(NOTHING),
    };
    Ok(Object {
        class: name(NOTHING),
        segment: name(SEGMENT),
        changed: 0,
        body: Body::User(body),
    })
}

fn member(alloc: Global) -> Result<Object, AllocError>
    ensures { IfOk result IsSpelled }
{
    user(alloc, vec![in alloc; staff(alloc)?]?)
}

fn stranger(alloc: Global) -> Result<Object, AllocError>
    ensures { IfOk result IsSpelled }
{
    user(alloc, Vec::new(alloc))
}

/// The right of a group.
fn group_right(writes: bool) -> Right
    ensures { result ≢ Right.None }
{
    if writes { Right::Write } else { Right::Read }
}

/// What a segment gives, and what each user then may do with an object in it.
#[derive(Clone, Copy)]
struct Row {
    owner_right: Right,
    group_writes: bool,
    world_right: Right,
    owner: Right,
    member: Right,
    stranger: Right,
}

const ROWS: [Row; 4] = [
    // Each his own.
    Row {
        owner_right: Right::Write,
        group_writes: false,
        world_right: Right::None,
        owner: Right::Write,
        member: Right::Read,
        stranger: Right::None,
    },
    // An owner who has no right.
    Row {
        owner_right: Right::None,
        group_writes: true,
        world_right: Right::None,
        owner: Right::None,
        member: Right::Write,
        stranger: Right::None,
    },
    // The greatest counts: the group's above the world's, and the world's above both others.
    Row {
        owner_right: Right::None,
        group_writes: true,
        world_right: Right::Read,
        owner: Right::Read,
        member: Right::Write,
        stranger: Right::Read,
    },
    Row {
        owner_right: Right::Read,
        group_writes: false,
        world_right: Right::Write,
        owner: Right::Write,
        member: Right::Write,
        stranger: Right::Write,
    },
];

fn segment(alloc: Global, row: Row) -> Result<Object, AllocError>
    ensures { IfOk result IsSpelled }
{
    let rights = Rights {
        owner: name(OWNER).number(),
        owner_right: row.owner_right,
        groups: Groups::from(vec![in alloc; (staff(alloc)?, group_right(row.group_writes))]?),
        world_right: row.world_right,
    };
    Ok(Object {
        class: name(NOTHING),
        segment: name(SEGMENT),
        changed: 0,
        body: Body::Segment(rights),
    })
}

fn filled<L: Ledger>(alloc: Global, row: Row, steps: &mut Steps<L>) -> Result<Image, AllocError> {
    let mut image = Image::empty();
    image.insert(alloc, name(OWNER), stranger(alloc)?, steps)?;
    image.insert(alloc, name(MEMBER), member(alloc)?, steps)?;
    image.insert(alloc, name(STRANGER), stranger(alloc)?, steps)?;
    image.insert(alloc, name(SEGMENT), segment(alloc, row)?, steps)?;
    image.insert(alloc, name(BOX), plain(alloc, NOTHING, SEGMENT), steps)?;
    Ok(image)
}

/// Whether the user has these rights on the box, and these on its segment.
fn has_rights(image: &Image, user: Oid, on_box: Right, on_segment: Right) -> bool {
    image.right_on(user, name(BOX)) == on_box
        && image.right_in(user, name(SEGMENT)) == on_box
        && image.right_on(user, name(SEGMENT)) == on_segment
        // On what isn't there, and in what is no segment.
        && image.right_on(user, name(NOTHING)) == Right::None
        && image.right_in(user, name(BOX)) == Right::None
}

/// Whether each user has the rights of the row; nobody and what is no user have none.
fn have_rights(image: &Image, row: Row) -> bool {
    has_rights(image, name(OWNER), row.owner, Right::Write)
        && has_rights(image, name(MEMBER), row.member, Right::Read)
        && has_rights(image, name(STRANGER), row.stranger, Right::Read)
        && has_rights(image, name(NOTHING), Right::None, Right::Read)
        && has_rights(image, name(BOX), Right::None, Right::Read)
}

fn check_rights<R: Abort, L: Ledger>(rt: &R, alloc: Global, blank: Blank) -> Result<(), Fail>
    requires name { blank.name ≡ L.name }
    requires parts { blank.parts ≡ L.parts }
    requires some_parts { 0 < L.parts }
{
    let mut steps = Steps::<L>::start(blank);
    for row in ROWS {
        assert!(rt; have_rights(&filled(alloc, row, &mut steps)?, row));
    }
    Ok(())
}

#[test]
fn rights(rt: HostRuntime) -> Result<(), Fail> {
    check_rights::<HostRuntime, Brand>(&rt, rt.alloc(), Blank::new(1))
}

/// Whether the image has so many objects, and at each of three names one of this class or none.
fn has(
    image: &Image,
    count: u64,
    five: Option<Oid>,
    seven: Option<Oid>,
    last: Option<Oid>,
) -> bool {
    image.count() == count
        && class_at(image, name(5)) == five
        && class_at(image, name(7)) == seven
        && class_at(image, greatest()) == last
}

fn class_at(image: &Image, oid: Oid) -> Option<Oid> {
    image.look(oid).map(|object| object.class)
}

/// Whether this is the lowest name from that number on.
fn is_next(image: &Image, number: u64, name: Option<Oid>) -> bool {
    match image.next_from(number) {
        Some((oid, _)) => name == Some(oid),
        None => name.is_none(),
    }
}

/// Whether the names of the image are 5, 7 and the greatest.
fn ascend(image: &Image) -> bool {
    is_next(image, 0, Some(name(5)))
        && is_next(image, name(5).number() + 1, Some(name(7)))
        && is_next(image, name(8).number(), Some(greatest()))
        && is_next(image, greatest().number() + 1, None)
}

/// Takes what threads may share.
fn goes_to_threads<T: Send + Sync>(_shared: &T) {}

/// Objects of the classes 2, 3 and 4, the first and the last of them at one name.
fn objects(alloc: Global) -> Result<Vec<(Oid, Object)>, AllocError>
    ensures { IfOk result (λ objects. All (λ entry. IsSpelled entry.1) objects.items) }
{
    let mut objects = Vec::new(alloc);
    objects.push((name(7), plain(alloc, 2, SEGMENT)))?;
    objects.push((name(5), plain(alloc, 3, SEGMENT)))?;
    objects.push((name(7), plain(alloc, 4, SEGMENT)))?;
    Ok(objects)
}

/// The image with an object of the class 5 at the greatest name, which builds at most 8 nodes.
fn with_greatest<L: Ledger>(
    alloc: Global,
    image: &Image,
    steps: &mut Steps<L>,
) -> Result<Image, AllocError>
    ensures { steps.new ≤ steps.old + 8 }
{
    let mut image = image.share()?;
    image.insert(alloc, greatest(), plain(alloc, 5, SEGMENT), steps)?;
    Ok(image)
}

/// The image with an object of the class 1 at the name 5.
fn with_one<L: Ledger>(alloc: Global, steps: &mut Steps<L>) -> Result<Image, AllocError> {
    Image::empty().with(alloc, name(5), plain(alloc, 1, SEGMENT), steps)
}

/// The image with the three objects at their two names.
fn with_objects<L: Ledger>(
    alloc: Global,
    image: &Image,
    steps: &mut Steps<L>,
) -> Result<Image, AllocError> {
    image.with_all(alloc, objects(alloc)?, steps)
}

/// Whether each of the images has what was put into it.
fn hold_objects(one: &Image, two: &Image, three: &Image) -> bool {
    has(&Image::empty(), 0, None, None, None)
        && has(one, 1, Some(name(1)), None, None)
        && has(two, 2, Some(name(3)), Some(name(4)), None)
        && has(three, 3, Some(name(3)), Some(name(4)), Some(name(5)))
}

fn check_objects<R: Abort, L: Ledger>(rt: &R, alloc: Global, blank: Blank) -> Result<(), Fail>
    requires name { blank.name ≡ L.name }
    requires parts { blank.parts ≡ L.parts }
    requires some_parts { 0 < L.parts }
{
    let mut steps = Steps::<L>::start(blank);
    let one = with_one(alloc, &mut steps)?;
    let two = with_objects(alloc, &one, &mut steps)?;
    let three = with_greatest(alloc, &two, &mut steps)?;
    goes_to_threads(&three);
    assert!(rt; hold_objects(&one, &two, &three));
    assert!(rt; ascend(&three));
    Ok(())
}

#[test]
fn objects_by_name(rt: HostRuntime) -> Result<(), Fail> {
    check_objects::<HostRuntime, Brand>(&rt, rt.alloc(), Blank::new(1))
}
