// The plan of a first checkpoint of one object: its pieces, byte by byte.
ghost use Rattle.std.specs.Prelude.{◌≡◌, ◌<◌};

use disk_pieces::Piece;
use extent_plan::{Plan, plan_checkpoint, used_pages};
use gem_image::Image;
use gem_object::{Body, Counter, Object, Oid};
use radix_pages::Steps;
use std::alloc::{AllocError, Global};
use std::marker::Brand;
use std::process::Abort;
use std::sync::ledger::{Blank, Ledger};
use std::test::Fail;

// The root in page 1: the number 9, the largest serial 2, one object, the directory in page 3, and
// two pages.
const ROOT: &[u8] = b"\x09\0\0\0\0\0\0\0\x02\0\0\0\x01\0\0\0\0\0\0\0\x03\0\0\0\x02\0\0\0";

// The directory in page 3: no page behind it, 16 bytes, one entry, the leaf 524,288 in page 4.
const DIRECTORY: &[u8] = b"\0\0\0\0\x10\0\0\0\x01\0\0\0\0\0\x08\0\0\0\0\0\x04\0\0\0";

// The leaf in page 4: no page behind it, 34 bytes, one object: the counter 2:5, of the class 0:19
// and in the segment 0:30, that is 7.
const LEAF: &[u8] =
    b"\0\0\0\0\x22\0\0\0\x01\x05\0\0\x02\0\0\0\0\x13\0\0\0\0\0\0\0\x1e\0\0\0\0\0\0\0\
    \x06\x07\0\0\0\0\0\0\0";

fn image_of<L: Ledger>(alloc: Global, steps: &mut Steps<L>) -> Result<Image, AllocError> {
    let counter = Object {
        class: Oid::from_parts(0, 19),
        segment: Oid::from_parts(0, 30),
        changed: 4,
        body: Body::Counter(Counter { value: 7 }),
    };
    let mut image = Image::empty();
    image.insert(alloc, Oid::from_parts(2, 5), counter, steps)?;
    Ok(image)
}

// Whether a piece is a page that begins so.
fn begins(piece: &Piece, page: u64, front: &[u8]) -> bool {
    piece.at() == page.saturating_mul(16_384)
        && piece.bytes().len() == 16_384
        && piece.bytes().starts_with(front)
}

fn is_as_written(plan: &Plan) -> bool {
    match plan.pieces.as_slice() {
        [root, directory, leaf] => {
            begins(root, 1, ROOT) && begins(directory, 3, DIRECTORY) && begins(leaf, 4, LEAF)
        }
        _ => false,
    }
}

fn is_three_and_four(pages: &[u32]) -> bool {
    match pages {
        [first, second] => *first == 3 && *second == 4,
        _ => false,
    }
}

fn check_plan<R: Abort, L: Ledger>(rt: &R, alloc: Global, blank: Blank) -> Result<(), Fail>
    requires name { blank.name ≡ L.name }
    requires parts { blank.parts ≡ L.parts }
    requires some_parts { 0 < L.parts }
{
    let mut steps = Steps::<L>::start(blank);
    let image = image_of(alloc, &mut steps)?;
    let around = (Vec::new(alloc), Vec::new(alloc));
    match plan_checkpoint(alloc, &image, 9, 1, &[524_288], &[], &[], around) {
        Ok(plan) => {
            assert!(rt; is_as_written(&plan));
            let used = used_pages(alloc, &plan.directory, &plan.leaves)?;
            assert!(rt; is_three_and_four(&used));
        }
        Err(_) => panic!(rt; "no plan"),
    }
    Ok(())
}

#[test]
fn plan_of_one_object(rt: HostRuntime) -> Result<(), Fail> {
    check_plan::<HostRuntime, Brand>(&rt, rt.alloc(), Blank::new(1))
}
