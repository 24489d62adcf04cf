//! Images.
ghost use Rattle.std.specs.Prelude.{◌≡◌, ◌+◌, ◌*◌, ◌^◌, ◌≤◌, All, length, option_map, option_copied, IfSome, IfOk, OnOk, OnErr};
ghost use Rattle.std.specs.Arc.{arc_value};
ghost use Rattle.std.specs.FinMap as map;
ghost use Rattle.radix_pages.specs.Next.{IsNext, entry_copied};
ghost use Rattle.gem_object.specs.Spelling.{IsSpelled};
ghost use Rattle.gem_image.specs.Image.{AreSpelled, AreNamed, with_objects};

use gem_object::{Object, Oid};
use radix_pages::{Pages, Steps};
use std::alloc::{AllocError, Global};
use std::marker::Model;
use std::sync::Arc;
use std::sync::ledger::Ledger;

/// Objects by their names. Contracts see the finite map from the numbers of the names to the
/// objects. Each of these has a spelling.
///
/// Images share what they have in common: `share` copies nothing, and `with`, `with_all` and
/// `insert` leave every other image as it was. An object that is put at a name builds at most 8
/// nodes, which the steps count.
#[derive(Drop)]
pub struct Image {
    pages: Pages<Object, 6, 8>,
}

impl Model for Image {
    ghost use Rattle.std.specs.Coded.{coded_ℕ};
    ghost use Rattle.std.specs.FinMap as map;
    ghost use Rattle.gem_object.specs.contracts.object.Object as object;
    ghost use Rattle.gem_image.specs.Image.{Image, IsImage};

    ghost Value = { Image };

    ghost coded = { map.code coded_ℕ object.the_row.coded };

    ghost view = { λ image. image.pages };

    ghost invariant = { λ image. IsImage image.pages };
}

impl Image {
    /// The image without objects. It takes no memory.
    pub fn empty() -> Image
        ensures { result ≡ map.empty }
    {
        Image {
            pages: Pages::new(),
        }
    }

    /// The object of this name, if there is one.
    pub fn look(&self, oid: Oid) -> Option<&Object>
        ensures object { option_copied result ≡ map.get self.now oid }
        ensures spelled { IfSome (option_copied result) IsSpelled }
    {
        self.pages.get(oid.number())
    }

    /// What `look` finds, with its owners counted: whoever clones it keeps the object, whatever
    /// becomes of the image.
    pub fn leaf(&self, oid: Oid) -> Option<&Arc<Object>>
        ensures object { option_map arc_value (option_copied result) ≡ map.get self.now oid }
        ensures spelled { IfSome (option_map arc_value (option_copied result)) IsSpelled }
    {
        self.pages.leaf(oid.number())
    }

    /// How many objects there are.
    pub fn count(&self) -> u64
        ensures count { result ≡ map.len self.now }
        ensures bound { result ≤ 2 ^ 48 }
    {
        self.pages.count()
    }

    /// What holds of every image: each of its objects has a spelling, and each number at which one
    /// stands is that of a name. This does nothing at run time.
    pub fn invariant(&self)
        ensures spelled { AreSpelled self.now }
        ensures named { AreNamed self.now }
    {
        let _pages = &self.pages;
    }

    /// The object whose name has the lowest number from this one on, with its name, if there is
    /// one.
    pub fn next_from(&self, number: u64) -> Option<(Oid, &Object)>
        ensures next { IsNext self.now number (entry_copied result) }
        ensures spelled { IfSome (entry_copied result) (λ entry. IsSpelled entry.1) }
    {
        let (number, object) = self.pages.next_from(number)?;
        Some((Oid::of(number)?, object))
    }

    /// The same image once more, for another owner. Nothing is copied.
    ///
    /// # Errors
    ///
    /// `AllocError` where the count of owners is full.
    pub fn share(&self) -> Result<Image, AllocError>
        ensures { IfOk result (λ image. image ≡ self.now) }
    {
        Ok(Image {
            pages: self.pages.share()?,
        })
    }

    /// The image with this object at this name, whether the name is new or not, and all else as
    /// here.
    ///
    /// # Errors
    ///
    /// `AllocError` where memory ran out.
    pub fn with<L: Ledger>(
        &self,
        alloc: Global,
        oid: Oid,
        object: Object,
        steps: &mut Steps<L>,
    ) -> Result<Image, AllocError>
        requires { IsSpelled object }
        ensures image { IfOk result (λ image. image ≡ map.insert self.now oid object) }
        ensures nodes { steps.new ≤ steps.old + 8 }
    {
        let mut image = self.share()?;
        image.insert(alloc, oid, object, steps)?;
        Ok(image)
    }

    /// The image with these objects at these names, one after the other, and all else as here: of
    /// two objects at one name the later one counts. A node that several names have in common is
    /// copied once.
    ///
    /// # Errors
    ///
    /// `AllocError` where memory ran out.
    pub fn with_all<L: Ledger>(
        &self,
        alloc: Global,
        objects: Vec<(Oid, Object)>,
        steps: &mut Steps<L>,
    ) -> Result<Image, AllocError>
        requires { All (λ entry. IsSpelled entry.1) objects.items }
        ensures image { IfOk result (λ image. image ≡ with_objects self.now objects.items) }
        ensures nodes { steps.new ≤ steps.old + 8 * length objects.items }
    {
        let mut changed = self.share()?;
        for (oid, object) in objects {
            changed.insert(alloc, oid, object, steps)?;
        }
        Ok(changed)
    }

    /// Puts the object at this name in this image alone. What no other image shares is changed in
    /// place.
    ///
    /// # Errors
    ///
    /// `AllocError` where memory ran out. The image is as it was.
    pub fn insert<L: Ledger>(
        &mut self,
        alloc: Global,
        oid: Oid,
        object: Object,
        steps: &mut Steps<L>,
    ) -> Result<(), AllocError>
        requires { IsSpelled object }
        ensures ok { OnOk result (self.new ≡ map.insert self.old oid object) }
        ensures err { OnErr result (self.new ≡ self.old) }
        ensures nodes { steps.new ≤ steps.old + 8 }
    {
        self.pages.insert(alloc, oid.number(), object, steps)
    }
}
