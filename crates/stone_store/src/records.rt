//! The records of a log behind a root.
ghost use Rattle.std.specs.Prelude.{◌≡◌, ◌<◌, All, None, OnOk};
ghost use Rattle.gem_object.specs.Spelling.{IsSpelled};
ghost use Rattle.stone_store.specs.Records.{next_at, old_at, misfit_with, after_record};

use crate::parts::FoundImage;
use gem_image::Image;
use gem_record::Effect;
use radix_pages::Steps;
use std::alloc::{AllocError, Global};
use std::sync::ledger::Ledger;
use tran_log::{Logged, Replay};

/// What was restored of a root and the records of a log: the image that they make, with the number of
/// its last commit, and where the gate of the record stands for which the log doesn't fit behind the
/// root.
#[derive(Drop)]
pub(crate) struct Restored {
    pub found: FoundImage,
    pub misfit: Option<u64>,
}

/// The same while the log is read, with the number of the root.
#[derive(Drop)]
pub(crate) struct Restoring<L: Ledger> {
    pub root: u64,
    pub restored: Restored,
    pub steps: Steps<L>,
}

// Where the first record behind a root of this number stands, unless it is the next one.
fn next_misfit(number: u64, one: &Logged) -> Option<u64>
    requires { number < one.now.effect.number }
    ensures { result ≡ next_at number one.now }
{
    if one.effect.number == number + 1 {
        None
    } else {
        Some(one.at)
    }
}

// Where a record stands that is older than the root of this number.
fn old_misfit(number: u64, one: &Logged) -> Option<u64>
    ensures { result ≡ old_at number one.now }
{
    if one.effect.number < number {
        Some(one.at)
    } else {
        None
    }
}

// Where the record stands for which a log doesn't fit, with one record more. The image has this
// number so far, and by the records so far it was the older place.
fn misfit_with(root: u64, number: u64, one: &Logged, older: Option<u64>) -> Option<u64>
    ensures { result ≡ misfit_with root number one.now older }
{
    if number > root {
        return older;
    }
    if one.effect.number > root {
        return next_misfit(root, one);
    }
    old_misfit(root, one)
}

// Puts the objects of a record into the image, where it is that of a commit after this one.
fn add_record<L: Ledger>(
    alloc: Global,
    root: u64,
    one: Logged,
    found: &mut FoundImage,
    steps: &mut Steps<L>,
) -> Result<(), AllocError>
    requires { All (λ entry. IsSpelled entry.1) one.effect.objects }
    ensures { OnOk result (found.new ≡ after_record root one found.old) }
{
    let Logged { effect, .. } = one;
    let Effect { number, objects } = effect;
    if number <= root {
        return Ok(());
    }
    found.image = found.image.with_all(alloc, objects.into_entries(), steps)?;
    found.number = number;
    Ok(())
}

/// The image of a root of this number, before the first record.
pub(crate) fn start_restoring<L: Ledger>(image: Image, root: u64, steps: Steps<L>) -> Restoring<L>
    ensures root { result.root ≡ root }
    ensures image { result.restored.found.image ≡ image }
    ensures number { result.restored.found.number ≡ root }
    ensures misfit { result.restored.misfit ≡ None }
{
    let number = root;
    let found = FoundImage { image, number };
    let misfit = None;
    let restored = Restored { found, misfit };
    Restoring {
        root,
        restored,
        steps,
    }
}

impl<L: Ledger> Replay for Restoring<L> {
    ghost use Rattle.std.specs.Prelude.{◌≡◌};
    ghost use Rattle.stone_store.specs.Records.{with_record};

    ghost takes = { λ old one new. (new.root ≡ old.root)
        × (new.restored ≡ with_record old.root one old.restored) };

    fn take(&mut self, alloc: Global, one: Logged) -> Result<(), AllocError> {
        let number = self.restored.found.number;
        let misfit = misfit_with(self.root, number, &one, self.restored.misfit);
        self.restored.misfit = misfit;
        let found = &mut self.restored.found;
        add_record(alloc, self.root, one, found, &mut self.steps)?;
        Ok(())
    }
}
