// A random walk over a view by its own calls, and over a plain state of the same image by those of
// programs: both end with the same record.
ghost use Rattle.std.specs.Prelude.{◌≡◌, ◌<◌, ℕ, true};
ghost use Rattle.object_programs.specs.Methods.{methods_fit};
ghost use Rattle.session_view.specs.Calls.{is_shared_at};

use crate::notes::note_unless;
use gem_image::Image;
use gem_object::{Body, Counter, Object, Oid, Value, Values, may_write};
use gem_record::{Mode, TxnRecord};
use gem_sound::names::{
    ARRAY_CLASS, DATA_CURATOR_SEGMENT, RC_COUNTER_CLASS, SYSTEM_SEGMENT, kernel_name,
};
use gem_update::Update;
use kernel_state::{begin_over, larger_image};
use object_programs::COUNTER_LIMIT;
use plain_state::PlainState;
use radix_pages::Steps;
use running_objects::{Objects, Stop};
use session_view::{View, ViewFault};
use std::alloc::{AllocError, Global};
use std::fmt;
use std::marker::Brand;
use std::sync::ledger::{Blank, Ledger};
use std::test::Fail;

/// How many steps the walk has.
const STEPS: usize = 10_000;

/// Numbers in no visible order, always the same ones.
#[derive(Drop)]
struct Numbers {
    state: u64,
}

impl Numbers {
    /// The next number, below this one.
    fn below(&mut self, bound: u64) -> u64
        requires { 0 < bound }
        ensures { result < bound }
    {
        self.state = self
            .state
            .wrapping_mul(6364136223846793005)
            .wrapping_add(1442695040888963407);
        (self.state >> 33) % bound
    }
}

/// A view and a plain state that go the same way.
#[derive(Drop)]
struct Both {
    view: View,
    plain: PlainState,
}

/// What came of a step: whether it was done.
#[derive(Clone, Copy, PartialEq, Eq)]
enum Came {
    Done,
    Refused,
}

/// What came of a view's call.
fn of_view<T: Drop>(answer: Result<T, ViewFault>) -> Result<Came, AllocError> {
    match answer {
        Ok(_) => Ok(Came::Done),
        Err(ViewFault::NoMemory) => Err(AllocError),
        Err(_) => Ok(Came::Refused),
    }
}

/// What came of a program's call.
fn of_plain<T: Drop>(answer: Result<T, Stop>) -> Result<Came, AllocError> {
    match answer {
        Ok(_) => Ok(Came::Done),
        Err(Stop::NoMemory) => Err(AllocError),
        Err(_) => Ok(Came::Refused),
    }
}

/// Whether there is a reduced-conflict object of this name.
pub(crate) fn is_shared(view: &View, oid: Oid) -> bool
    ensures { result ≡ is_shared_at oid view.now.state.seen }
{
    match view.peek(oid) {
        Some(object) => object.body.is_shared(),
        None => false,
    }
}

/// Puts a body in place of that of an object, as a program does.
fn write_body(plain: &mut PlainState, oid: Oid, body: Body) -> Result<(), Stop>
    requires { methods_fit oid body ≡ true }
{
    plain.write(oid)?;
    plain.put(oid, body)
}

/// Puts an object into a segment, as a program does. Where the segment doesn't give enough the
/// object isn't among the written ones, as in the view.
fn write_segment(plain: &mut PlainState, oid: Oid, segment: Oid) -> Result<Came, AllocError> {
    if plain.may_write(oid) && !may_write(plain.right_in(segment)) {
        plain.reserve(6)?;
        plain.ask(oid);
        plain.ask(segment);
        return Ok(Came::Refused);
    }
    of_plain(move_object(plain, oid, segment))
}

fn move_object(plain: &mut PlainState, oid: Oid, segment: Oid) -> Result<(), Stop> {
    plain.write(oid)?;
    plain.read(segment)?;
    plain.move_to(oid, segment)
}

impl Both {
    /// Looks at an object; whether the same came of it.
    fn look(&mut self, oid: Oid) -> Result<bool, AllocError> {
        self.view.reserve(3)?;
        if self.view.is_changeable(oid) {
            let came = of_view(self.view.look(oid))?;
            return Ok(came == of_plain(self.plain.read(oid))?);
        }
        if is_shared(&self.view, oid) {
            let came = of_view(self.view.rc_look(oid))?;
            return Ok(came == of_plain(self.plain.read(oid))?);
        }
        Ok(true)
    }

    /// Gives an object one slot with this number, if it may have it.
    fn change(&mut self, alloc: Global, oid: Oid, number: i64) -> Result<bool, AllocError> {
        let mut values = Values::of(Vec::new(alloc));
        values.push(Value::Int(number))?;
        let body = Body::Plain(values);
        if !self.view.is_changeable(oid) || !self.view.accepts_body(oid, &body)? {
            return Ok(true);
        }
        let copy = body.clone()?;
        let came = of_view(self.view.change(oid, body))?;
        Ok(came == of_plain(write_body(&mut self.plain, oid, copy))?)
    }

    /// Puts an object into a segment, if it may be put there.
    fn move_to(&mut self, oid: Oid, segment: Oid) -> Result<bool, AllocError> {
        if !self.view.is_changeable(oid) || !self.view.is_segment(segment) {
            return Ok(true);
        }
        let came = of_view(self.view.move_to(oid, segment))?;
        Ok(came == write_segment(&mut self.plain, oid, segment)?)
    }

    /// Makes an array of one slot.
    fn make(&mut self, alloc: Global) -> Result<bool, AllocError> {
        let mut values = Values::of(Vec::new(alloc));
        values.push(Value::Nil)?;
        self.make_with(alloc, kernel_name(ARRAY_CLASS), Body::Plain(values))
    }

    /// Makes an object, if it may be made.
    fn make_with(&mut self, alloc: Global, class: Oid, body: Body) -> Result<bool, AllocError>
        requires { (name : ℕ) → methods_fit name body ≡ true }
    {
        let object = Object {
            class,
            segment: kernel_name(DATA_CURATOR_SEGMENT),
            changed: 0,
            body,
        };
        if self.view.next_counter() as u64 >= COUNTER_LIMIT || !self.view.may_add(&object) {
            return Ok(true);
        }
        let copy = object.clone()?;
        let came = of_view(self.view.make(object.class, object.segment, object.body))?;
        let mut objects = Vec::new(alloc);
        objects.push(copy)?;
        Ok(came == of_plain(self.plain.make(objects))?)
    }

    /// Raises a counter, if there is one that takes it.
    fn update(&mut self, oid: Oid, by: i64) -> Result<bool, AllocError> {
        let update = Update::Counter(by);
        if !self.view.takes(oid, &update)? {
            return Ok(true);
        }
        let came = of_view(self.view.rc_update(oid, update))?;
        let allowed = self.plain.may_write(oid);
        of_plain(self.plain.note(oid, Update::Counter(by)))?;
        Ok(allowed == (came == Came::Done))
    }

    /// A step of the walk; whether the same came of it.
    fn step(&mut self, alloc: Global, numbers: &mut Numbers) -> Result<bool, AllocError> {
        let oid = some_name(numbers);
        let number = numbers.below(1000) as i64;
        match numbers.below(8) {
            0 => self.make(alloc),
            1 => self.make_with(
                alloc,
                kernel_name(RC_COUNTER_CLASS),
                Body::Counter(Counter { value: 0 }),
            ),
            2 => self.move_to(oid, kernel_name(DATA_CURATOR_SEGMENT)),
            3 => self.move_to(oid, kernel_name(SYSTEM_SEGMENT)),
            4 => self.change(alloc, oid, number),
            5 => self.update(oid, number),
            _ => self.look(oid),
        }
    }
}

/// The name of an object of the kernel, of one of the image beside it, or of one that was made, if
/// there is one.
fn some_name(numbers: &mut Numbers) -> Oid {
    match numbers.below(3) {
        0 => Oid::from_parts(0, 1 + numbers.below(40) as u32),
        1 => Oid::from_parts(1, 1 + numbers.below(3000) as u32),
        _ => Oid::from_parts(2, 1 + numbers.below(200) as u32),
    }
}

/// Goes so many steps; the number of the first of which not the same came.
fn walk(alloc: Global, both: &mut Both) -> Result<Option<usize>, AllocError> {
    let mut numbers = Numbers { state: 1 };
    for step in 0..STEPS {
        if !both.step(alloc, &mut numbers)? {
            return Ok(Some(step));
        }
    }
    Ok(None)
}

/// Whether two lists are printed alike.
fn same<T: fmt::Debug>(alloc: Global, one: &[T], other: &[T]) -> Result<bool, AllocError> {
    let one = format!(in alloc; "{one:?}")?;
    let other = format!(in alloc; "{other:?}")?;
    Ok(one.as_str() == other.as_str())
}

/// Notes a list of the record that isn't printed as that of the plain state.
fn compare<T: fmt::Debug>(
    alloc: Global,
    wrong: &mut String,
    what: &str,
    one: &[T],
    other: &[T],
) -> Result<(), AllocError> {
    let alike = same(alloc, one, other)?;
    note_unless(wrong, what, alike)
}

/// Notes what differs between the names that were touched.
fn compare_touched(
    alloc: Global,
    both: &Both,
    record: &TxnRecord,
    wrong: &mut String,
) -> Result<(), AllocError> {
    let plain = both.plain.touched_names()?;
    compare(
        alloc,
        wrong,
        "touched",
        record.touched.as_slice(),
        plain.as_slice(),
    )
}

/// Notes what differs between the objects that were written.
fn compare_written(
    alloc: Global,
    both: &Both,
    record: &TxnRecord,
    wrong: &mut String,
) -> Result<(), AllocError> {
    let plain = both.plain.written_objects()?;
    compare(
        alloc,
        wrong,
        "written",
        record.written.as_slice(),
        plain.as_slice(),
    )
}

/// Notes what differs between the objects that were made.
fn compare_made(
    alloc: Global,
    both: &Both,
    record: &TxnRecord,
    wrong: &mut String,
) -> Result<(), AllocError> {
    let plain = both.plain.made_objects()?;
    compare(
        alloc,
        wrong,
        "made",
        record.made.as_slice(),
        plain.as_slice(),
    )
}

/// Notes what differs between the updates.
fn compare_updates(
    alloc: Global,
    both: &Both,
    record: &TxnRecord,
    wrong: &mut String,
) -> Result<(), AllocError> {
    let plain = both.plain.updates_by_name()?;
    compare(
        alloc,
        wrong,
        "updates",
        record.updates.as_slice(),
        plain.as_slice(),
    )
}

/// Notes what differs between the record and the plain state.
fn compare_all(
    alloc: Global,
    both: &Both,
    record: &TxnRecord,
    wrong: &mut String,
) -> Result<(), AllocError> {
    compare_touched(alloc, both, record, wrong)?;
    compare_written(alloc, both, record, wrong)?;
    compare_made(alloc, both, record, wrong)?;
    compare_updates(alloc, both, record, wrong)
}

/// Whether each list of the record has something.
fn has_all(record: &TxnRecord) -> bool {
    !record.touched.as_slice().is_empty()
        && !record.written.as_slice().is_empty()
        && !record.made.as_slice().is_empty()
        && !record.updates.as_slice().is_empty()
}

/// Goes the walk, and notes what is wrong after it.
fn check_walk(alloc: Global, both: &mut Both, wrong: &mut String) -> Result<(), AllocError> {
    if let Some(step) = walk(alloc, both)? {
        let line = format!(in alloc; "step {step}")?;
        return wrong.push_str(line.as_str());
    }
    let record = both.view.finish(1, 1, 1, 2, 0, Mode::Full)?;
    note_unless(wrong, "an empty list", has_all(&record))?;
    compare_all(alloc, both, &record, wrong)
}

/// A view and a plain state over an image, if it is sound.
fn both_over(alloc: Global, image: Image) -> Result<Option<Both>, AllocError> {
    let other = image.share()?;
    let Some(view) = begin_over::<View>(alloc, image, 1)? else {
        return Ok(None);
    };
    match begin_over::<PlainState>(alloc, other, 1)? {
        Some(plain) => Ok(Some(Both { view, plain })),
        None => Ok(None),
    }
}

/// What is wrong after a walk over these.
fn walked(alloc: Global, both: &mut Both) -> Result<String, AllocError> {
    let mut wrong = String::new(alloc);
    check_walk(alloc, both, &mut wrong)?;
    Ok(wrong)
}

/// What is wrong after a walk.
fn wrong_walk<L: Ledger>(alloc: Global, blank: Blank) -> Result<String, AllocError>
    requires name { blank.name ≡ L.name }
    requires parts { blank.parts ≡ L.parts }
    requires some_parts { 0 < L.parts }
{
    let mut steps = Steps::<L>::start(blank);
    match both_over(alloc, larger_image(alloc, 100, &mut steps)?)? {
        Some(mut both) => walked(alloc, &mut both),
        None => format!(in alloc; "the image isn't sound"),
    }
}

/// `wrong_walk` with steps that no other call counts.
fn walk_by_brand(alloc: Global) -> Result<String, AllocError> {
    wrong_walk::<Brand>(alloc, Blank::new(1))
}

#[test]
fn random_walk(rt: HostRuntime) -> Result<(), Fail> {
    let wrong = walk_by_brand(rt.alloc())?;
    assert_eq!(rt; wrong.as_str(), "");
    Ok(())
}
