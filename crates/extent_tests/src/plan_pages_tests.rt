// Plans of checkpoints of three counters in two leaves: which pages they write, which they leave, and
// which they use again. A page k begins at 16,384 k. Expected values are worked by hand.
ghost use Rattle.std.specs.Prelude.{◌≡◌, ◌<◌, ◌^◌, length, All, IfOk};
ghost use Rattle.std.specs.List.{AllByRecursion};
ghost use Rattle.gem_object.specs.Spelling.{IsOid, IsSpelled};

use disk_pieces::Piece;
use extent_plan::{LeafPlace, MOST_PAGES, Plan, PlanFault, plan_checkpoint, used_pages};
use gem_image::Image;
use gem_object::{Body, Counter, Object, Oid};
use radix_pages::Steps;
use std::alloc::{AllocError, Global};
use std::marker::Brand;
use std::process::Abort;
use std::sync::ledger::{Blank, Ledger};
use std::test::Fail;

// A name with the serial 1. There are 64 in a leaf: those from 1:0 on are in the leaf 262,144, and
// those from 1:64 on in the next.
fn name(counter: u32) -> Oid
    requires { counter < 2 ^ 24 }
    ensures { IsOid result }
{
    Oid::from_parts(1, counter)
}

// A counter of the class 0:19 and in the segment 0:30, changed last by this commit.
fn counter(changed: u64) -> Object
    ensures { IsSpelled result }
{
    Object {
        class: Oid::from_parts(0, 19),
        segment: Oid::from_parts(0, 30),
        changed,
        body: Body::Counter(Counter { value: 20 }),
    }
}

// The image with such a counter at a name.
fn with_counter<L: Ledger>(
    alloc: Global,
    image: &Image,
    at: u32,
    changed: u64,
    steps: &mut Steps<L>,
) -> Result<Image, AllocError>
    requires { at < 2 ^ 24 }
{
    image.with(alloc, name(at), counter(changed), steps)
}

// Two in one leaf, and one in the next.
fn three<L: Ledger>(alloc: Global, steps: &mut Steps<L>) -> Result<Image, AllocError> {
    let one = with_counter(alloc, &Image::empty(), 3, 7, steps)?;
    let two = with_counter(alloc, &one, 5, 7, steps)?;
    with_counter(alloc, &two, 64, 7, steps)
}

// Of what is planned: the commit up to which it goes, and the page of its root.
#[derive(Clone, Copy)]
struct Order {
    number: u64,
    page: u32,
}

// A plan where a directory and leaves are in use, and these leaves have changed.
fn plan_over(
    alloc: Global,
    image: &Image,
    order: Order,
    changed: &[u64],
    directory: &[u32],
    leaves: &[LeafPlace],
) -> Result<Plan, PlanFault>
    requires { AllByRecursion (λ leaf. leaf < 2 ^ 42) changed.now }
{
    let used = used_pages(alloc, directory, leaves)?;
    let Order { number, page } = order;
    let around = (Vec::new(alloc), Vec::new(alloc));
    plan_checkpoint(alloc, image, number, page, changed, &used, leaves, around)
}

// The first plan of an image.
fn first_plan(alloc: Global, image: &Image) -> Result<Plan, PlanFault> {
    let order = Order { number: 7, page: 1 };
    plan_over(alloc, image, order, &[262_144, 262_145], &[], &[])
}

// Where the pieces begin.
fn offsets(alloc: Global, pieces: &[Piece]) -> Result<Vec<u64>, AllocError> {
    let mut offsets = Vec::new(alloc);
    for piece in pieces {
        offsets.push(piece.at())?;
    }
    Ok(offsets)
}

// A leaf of one page: its number, the page, how many objects it has, and their largest serial. Of
// more or no pages it is the page 0.
type Row = (u64, u32, u64, u32);

fn row_of(leaf: &LeafPlace) -> Row {
    let page = match leaf.pages.as_slice() {
        [page] => *page,
        _ => 0,
    };
    (leaf.number, page, leaf.count, leaf.serial)
}

fn rows_of(alloc: Global, leaves: &[LeafPlace]) -> Result<Vec<Row>, AllocError> {
    let mut rows = Vec::new(alloc);
    for leaf in leaves {
        rows.push(row_of(leaf))?;
    }
    Ok(rows)
}

// Whether a plan has its pieces at these offsets, its directory in this page and these leaves.
fn is_plan(
    alloc: Global,
    plan: &Plan,
    starts: &[u64],
    directory: u32,
    rows: &[Row],
) -> Result<bool, AllocError> {
    Ok(
        offsets(alloc, &plan.pieces)?.as_slice() == starts
            && plan.directory.as_slice() == [directory].as_slice()
            && rows_of(alloc, &plan.leaves)?.as_slice() == rows,
    )
}

// A piece of one byte at each of two offsets.
fn around(alloc: Global, before: u64, after: u64) -> Result<(Vec<Piece>, Vec<Piece>), AllocError> {
    let one = Piece::new(before, b"\x01".to_vec(alloc)?);
    let two = Piece::new(after, b"\x02".to_vec(alloc)?);
    Ok((vec![in alloc; one]?, vec![in alloc; two]?))
}

// Whether the pieces around the root stand before it and behind it, and the rest behind them.
fn plans_around<L: Ledger>(alloc: Global, steps: &mut Steps<L>) -> Result<bool, PlanFault> {
    let image = with_counter(alloc, &Image::empty(), 3, 7, steps)?;
    let around = around(alloc, 0, 32_768)?;
    let plan = plan_checkpoint(alloc, &image, 7, 1, &[262_144], &[], &[], around)?;
    let starts = [0, 16_384, 32_768, 49_152, 65_536];
    Ok(offsets(alloc, &plan.pieces)?.as_slice() == starts.as_slice())
}

// Whether the first plan of the three counters takes the pages from 3 on.
fn plans_three(alloc: Global, image: &Image) -> Result<bool, PlanFault> {
    let plan = first_plan(alloc, image)?;
    is_first(alloc, &plan)
}

fn is_first(alloc: Global, plan: &Plan) -> Result<bool, PlanFault> {
    let starts = [16_384, 49_152, 65_536, 81_920];
    let rows = [(262_144, 4, 2, 1), (262_145, 5, 1, 1)];
    Ok(is_plan(alloc, plan, &starts, 3, &rows)?)
}

// The second plan, where the counter in the other leaf was changed by the commit 8.
fn second_plan<L: Ledger>(
    alloc: Global,
    image: &Image,
    steps: &mut Steps<L>,
) -> Result<(Image, Plan), PlanFault> {
    let first = first_plan(alloc, image)?;
    let changed = with_counter(alloc, image, 64, 8, steps)?;
    let order = Order { number: 8, page: 2 };
    let plan = plan_over(
        alloc,
        &changed,
        order,
        &[262_145],
        &first.directory,
        &first.leaves,
    )?;
    Ok((changed, plan))
}

// It shares the leaf in page 4, and leaves 3 and 5 as they are.
fn is_second(alloc: Global, plan: &Plan) -> Result<bool, PlanFault> {
    let starts = [32_768, 98_304, 114_688];
    let rows = [(262_144, 4, 2, 1), (262_145, 7, 1, 1)];
    Ok(is_plan(alloc, plan, &starts, 6, &rows)?)
}

// The third, where a counter in the first leaf was changed by the commit 9.
fn third_plan<L: Ledger>(
    alloc: Global,
    image: &Image,
    second: &Plan,
    steps: &mut Steps<L>,
) -> Result<Plan, PlanFault> {
    let changed = with_counter(alloc, image, 5, 9, steps)?;
    let order = Order { number: 9, page: 1 };
    plan_over(
        alloc,
        &changed,
        order,
        &[262_144],
        &second.directory,
        &second.leaves,
    )
}

// It takes the pages 3 and 5, which aren't in use any more, and shares the leaf in page 7.
fn is_third(alloc: Global, plan: &Plan) -> Result<bool, PlanFault> {
    let starts = [16_384, 49_152, 81_920];
    let rows = [(262_144, 5, 2, 1), (262_145, 7, 1, 1)];
    Ok(is_plan(alloc, plan, &starts, 3, &rows)?)
}

fn plans_changes<L: Ledger>(
    alloc: Global,
    image: &Image,
    steps: &mut Steps<L>,
) -> Result<bool, PlanFault> {
    let (changed, second) = second_plan(alloc, image, steps)?;
    let third = third_plan(alloc, &changed, &second, steps)?;
    Ok(is_second(alloc, &second)? && is_third(alloc, &third)?)
}

// Two leaves, and then one between them that is new.
fn plan_between<L: Ledger>(alloc: Global, steps: &mut Steps<L>) -> Result<Plan, PlanFault> {
    let one = with_counter(alloc, &Image::empty(), 3, 7, steps)?;
    let two = with_counter(alloc, &one, 128, 7, steps)?;
    let order = Order { number: 7, page: 1 };
    let first = plan_over(alloc, &two, order, &[262_144, 262_146], &[], &[])?;
    let three = with_counter(alloc, &two, 64, 8, steps)?;
    let order = Order { number: 8, page: 2 };
    plan_over(
        alloc,
        &three,
        order,
        &[262_145],
        &first.directory,
        &first.leaves,
    )
}

// It stands between the others, which stay in the pages 4 and 5.
fn plans_between<L: Ledger>(alloc: Global, steps: &mut Steps<L>) -> Result<bool, PlanFault> {
    let plan = plan_between(alloc, steps)?;
    let starts = [32_768, 98_304, 114_688];
    let rows = [(262_144, 4, 1, 1), (262_145, 7, 1, 1), (262_146, 5, 1, 1)];
    Ok(is_plan(alloc, &plan, &starts, 6, &rows)?)
}

// The pages from 3 on and before this one.
fn pages_before(alloc: Global, end: u32) -> Result<Vec<u32>, AllocError> {
    let mut pages = Vec::new(alloc);
    for page in 3..end {
        pages.push(page)?;
    }
    Ok(pages)
}

// A plan of an image where these pages are in use, and no leaf is.
fn plan_behind(alloc: Global, image: &Image, end: u32) -> Result<Plan, PlanFault> {
    let order = Order { number: 8, page: 2 };
    let pages = pages_before(alloc, end)?;
    plan_over(alloc, image, order, &[262_144, 262_145], &pages, &[])
}

// Whether three more pages have just room, or one is too many.
fn plans_to_the_end(alloc: Global, image: &Image) -> Result<bool, PlanFault> {
    let plan = plan_behind(alloc, image, 262_141)?;
    let starts = [32_768, 4_294_918_144, 4_294_934_528, 4_294_950_912];
    let rows = [(262_144, 262_142, 2, 1), (262_145, 262_143, 1, 1)];
    Ok(is_plan(alloc, &plan, &starts, 262_141, &rows)?)
}

fn is_full(alloc: Global, image: &Image) -> bool {
    match plan_behind(alloc, image, 262_142) {
        Err(PlanFault::Full { pages }) => pages == 262_145 && MOST_PAGES == 262_144,
        _ => false,
    }
}

fn check_plans<R: Abort, L: Ledger>(rt: &R, alloc: Global, blank: Blank) -> Result<(), Fail>
    requires name { blank.name ≡ L.name }
    requires parts { blank.parts ≡ L.parts }
    requires some_parts { 0 < L.parts }
{
    let mut steps = Steps::<L>::start(blank);
    let image = three(alloc, &mut steps)?;
    assert_eq!(rt; plans_around(alloc, &mut steps), Ok(true));
    assert_eq!(rt; plans_three(alloc, &image), Ok(true));
    assert_eq!(rt; plans_changes(alloc, &image, &mut steps), Ok(true));
    assert_eq!(rt; plans_between(alloc, &mut steps), Ok(true));
    assert_eq!(rt; plans_to_the_end(alloc, &image), Ok(true));
    assert!(rt; is_full(alloc, &image));
    Ok(())
}

#[test]
fn pages_of_plans(rt: HostRuntime) -> Result<(), Fail> {
    check_plans::<HostRuntime, Brand>(&rt, rt.alloc(), Blank::new(1))
}

// A leaf in these pages.
fn leaf(alloc: Global, pages: &[u32]) -> Result<LeafPlace, AllocError> {
    Ok(LeafPlace {
        number: 0,
        pages: pages.to_vec(alloc)?,
        count: 1,
        serial: 1,
    })
}

// Whether a directory in some pages and a leaf in others use these.
fn are_used(alloc: Global, directory: &[u32], pages: &[u32], used: &[u32]) -> Result<bool, Fail> {
    let leaves = vec![in alloc; leaf(alloc, pages)?]?;
    Ok(used_pages(alloc, directory, &leaves)?.as_slice() == used)
}

#[test]
fn pages_in_use(rt: HostRuntime) -> Result<(), Fail> {
    let alloc = rt.alloc();
    assert!(rt; are_used(alloc, &[], &[], &[])?);
    assert!(rt; are_used(alloc, &[9, 3], &[7, 4, 9], &[3, 4, 7, 9])?);
    assert!(rt; are_used(alloc, &[0, 2], &[1, 262_143, 262_144], &[262_143])?);
    Ok(())
}
