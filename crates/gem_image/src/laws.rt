//! What follows from the definitions alone. Each law is the contract of a function that does
//! nothing.
ghost use Rattle.std.specs.Prelude.{◌≡◌, ◌≢◌, ◌↔◌, ◌++◌, ◌∷◌, ℕ, List, Some, None, All};
ghost use Rattle.std.specs.FinMap as map;
ghost use Rattle.gem_object.specs.texts.Bytes.{Bytes as Text};
ghost use Rattle.gem_object.specs.seg_rights.Right.{IsAtMost};
ghost use Rattle.gem_object.specs.seg_rights.Rights.{IsGreatestRight};
ghost use Rattle.gem_object.specs.seg_rights.declared.rights.Rights.{Rights};
ghost use Rattle.gem_object.specs.declared.object.Object.{Object};
ghost use Rattle.gem_image.specs.Image.{Image, Contents, Objects, Agree, with_objects};
ghost use Rattle.gem_image.specs.Rights.{same_group, rights_of, rights_at, groups_at};
ghost use Rattle.gem_image.specs.Rights.{right_in, right_on};

use gem_object::{Body, Right};

/// Objects that are put leave what stands at every other name. At a name stands the last of those
/// that were put there. They may be put in two parts.
pub fn put_objects()
    ensures other_names { (image : Image) (objects : List (ℕ × Object)) (number : ℕ) →
        All (λ entry. entry.0 ≢ number) objects →
        map.get (with_objects image objects) number ≡ map.get image number }
    ensures last { (image : Image) (before after : List (ℕ × Object)) (number : ℕ)
        (object : Object) → All (λ entry. entry.0 ≢ number) after →
        map.get (with_objects image (before ++ ((number, object) ∷ after))) number ≡ Some object }
    ensures parts { (image : Image) (objects more : List (ℕ × Object)) →
        with_objects image (objects ++ more) ≡ with_objects (with_objects image objects) more }
{}

/// Images agree on a name where both have an object there, of one class, in one segment and with
/// one body, or neither has one. That is an equivalence.
pub fn agreement()
    ensures objects { (image other : Image) (number : ℕ) (object found : Object) →
        map.get image number ≡ Some object → map.get other number ≡ Some found →
        (Agree image other number ↔ ((object.class ≡ found.class)
        × (object.segment ≡ found.segment) × (object.body ≡ found.body))) }
    ensures none { (image other : Image) (number : ℕ) → map.get image number ≡ None →
        (Agree image other number ↔ (map.get other number ≡ None)) }
    ensures itself { (image : Image) (number : ℕ) → Agree image image number }
    ensures back { (image other : Image) (number : ℕ) → Agree image other number →
        Agree other image number }
    ensures along { (image other third : Image) (number : ℕ) → Agree image other number →
        Agree other third number → Agree image third number }
{}

/// The owner of a segment may change it, and all others may read it.
pub fn rights_on_segments()
    ensures owner { (objects : Objects) (segment : ℕ) (object : Contents) (rights : Rights Text) →
        objects segment ≡ Some object → object.body ≡ Body.Segment rights →
        right_on objects rights.owner segment ≡ Right.Write }
    ensures others { (objects : Objects) (user segment : ℕ) (object : Contents)
        (rights : Rights Text) →
        objects segment ≡ Some object → object.body ≡ Body.Segment rights →
        user ≢ rights.owner → right_on objects user segment ≡ Right.Read }
{}

/// On an object that isn't a segment a user has the greatest of the rights that the object's
/// segment gives the user. So it is at least what the world is given.
pub fn rights_on_others()
    ensures greatest { (objects : Objects) (user number : ℕ) (object : Contents)
        (rights : Rights Text) (groups : List Text) → objects number ≡ Some object →
        rights_of object.body ≡ None → rights_at objects object.segment ≡ Some rights →
        groups_at objects user ≡ Some groups →
        IsGreatestRight same_group rights user groups (right_on objects user number) }
    ensures world { (objects : Objects) (user number : ℕ) (object : Contents)
        (rights : Rights Text) (groups : List Text) → objects number ≡ Some object →
        rights_of object.body ≡ None → rights_at objects object.segment ≡ Some rights →
        groups_at objects user ≡ Some groups →
        IsAtMost rights.world_right (right_on objects user number) }
{}

/// Nobody has a right on an object that isn't there. In a segment that isn't there nobody has one,
/// and a user who isn't there has none in any.
pub fn no_rights()
    ensures object { (objects : Objects) (user number : ℕ) → objects number ≡ None →
        right_on objects user number ≡ Right.None }
    ensures segment { (objects : Objects) (user segment : ℕ) → rights_at objects segment ≡ None →
        right_in objects user segment ≡ Right.None }
    ensures user { (objects : Objects) (user segment : ℕ) → groups_at objects user ≡ None →
        right_in objects user segment ≡ Right.None }
{}

/// The right on an object goes by the object, its segment and the user alone.
pub fn rights_by_three_objects()
    ensures { (objects other : Objects) (user number : ℕ) (object : Contents) →
        objects number ≡ Some object → other number ≡ objects number →
        other object.segment ≡ objects object.segment → other user ≡ objects user →
        right_on other user number ≡ right_on objects user number }
{}
