//! What follows from the definitions alone. Each law is the contract of a function that does
//! nothing.
ghost use Rattle.std.specs.Prelude.{◌≡◌, ◌≢◌, ◌≤◌, ◌<◌, ◌↔◌, ◌++◌, ◌∷◌, [], ℕ, List, Some, None, IsSome, is_some, length, All, true, false, filter, map};
ghost use Rattle.std.specs.List.{list_all};
ghost use Rattle.gem_object.specs.texts.Bytes.{Bytes as Text};
ghost use Rattle.op_table.specs.declared.prims.Kind.{Kind as Receiver};
ghost use Rattle.gem_object.specs.declared.body.ClassBody.{ClassBody};
ghost use Rattle.gem_image.specs.Image.{Contents, Objects};
ghost use Rattle.gem_image.specs.Rights.{rights_at};
ghost use Rattle.gem_sound.specs.Parts.{class_of, class_at, user_at};
ghost use Rattle.gem_sound.specs.Kernel.{kernel_body, kernel_class, classes_of, class_sides_of, subclasses, of_kind};
ghost use Rattle.gem_sound.specs.Inherited.{HasNames};
ghost use Rattle.gem_sound.specs.Sound.{ImageRule, IsSound, BreaksFirst, names_in, rule_number};

use gem_object::Kind;

/// The kernel has 35 objects, with the numbers from 1 to 35. The first 26 are classes.
pub fn kernel_has_35_objects()
    ensures objects { (number : ℕ) → IsSome (kernel_body number) ↔ ((0 < number) × (number ≤ 35)) }
    ensures classes { (number : ℕ) → IsSome (kernel_class number) ↔ ((0 < number) × (number ≤ 26)) }
{}

/// The kernel's classes under each of them, by their numbers, and those of each kind.
pub fn kernel_classes_in_their_places()
    ensures object { subclasses 1 ≡ 2 ∷ 3 ∷ 4 ∷ 7 ∷ 10 ∷ 11 ∷ 19 ∷ 23 ∷ 24 ∷ 25 ∷ 26 ∷ [] }
    ensures boolean { subclasses 4 ≡ 5 ∷ 6 ∷ [] }
    ensures magnitude { subclasses 7 ≡ 8 ∷ 9 ∷ [] }
    ensures collection { subclasses 11 ≡ 12 ∷ 17 ∷ 20 ∷ 21 ∷ 22 ∷ [] }
    ensures sequenceable { subclasses 12 ≡ 13 ∷ 14 ∷ 15 ∷ 16 ∷ [] }
    ensures dictionary { subclasses 17 ≡ 18 ∷ [] }
    ensures plain { of_kind Kind.Plain ≡ 1 ∷ 7 ∷ 11 ∷ 12 ∷ [] }
    ensures indexed { of_kind Kind.Indexed ≡ 13 ∷ 14 ∷ [] }
    ensures bytes { of_kind Kind.Bytes ≡ 15 ∷ [] }
    ensures dict { of_kind Kind.Dict ≡ 17 ∷ 18 ∷ [] }
    ensures shared { of_kind Kind.Counter ++ of_kind Kind.Bag ++ of_kind Kind.RcDict
        ++ of_kind Kind.Queue ≡ 19 ∷ 20 ∷ 21 ∷ 22 ∷ [] }
    ensures segment { of_kind Kind.Segment ++ of_kind Kind.User ≡ 23 ∷ 24 ∷ [] }
{}

/// Whatever receivers a primitive has, it stands in a class of the kernel, and in no other class.
pub fn primitives_stand_in_the_kernel()
    ensures some { (receiver : Receiver) →
        0 < length (classes_of receiver ++ class_sides_of receiver) }
    ensures classes { (receiver : Receiver) →
        list_all (λ class. is_some (kernel_class class))
        (classes_of receiver ++ class_sides_of receiver) ≡ true }
{}

/// Among sound objects whatever one refers to is there, and no object has the name 0.
pub fn nothing_is_missing()
    ensures there { (objects : Objects) (number : ℕ) (object : Contents) → IsSound objects
        → objects number ≡ Some object → All (λ name. IsSome (objects name)) (names_in object) }
    ensures no_zero { (objects : Objects) → IsSound objects → objects 0 ≡ None }
    ensures kernel { (objects : Objects) (number : ℕ) → IsSound objects
        → IsSome (kernel_body number) → IsSome (objects number) }
{}

/// Among sound objects the segment of each is a segment, and the names of a class with those that
/// it inherits are at most 200.
pub fn sound_objects_have()
    ensures segment { (objects : Objects) (number : ℕ) (object : Contents) → IsSound objects
        → objects number ≡ Some object → IsSome (rights_at objects object.segment) }
    ensures names { (objects : Objects) (number : ℕ) (object : Contents) (class : ClassBody)
        → IsSound objects → objects number ≡ Some object → class_of object.body ≡ Some class
        → (names : List Text) × HasNames objects number names × (length names ≤ 200) }
{}

/// Where objects are sound no rule is broken, and else at most one is the first that is, at one
/// name.
pub fn one_first_fault()
    ensures none { (objects : Objects) (number : ℕ) (rule : ImageRule) → IsSound objects
        → BreaksFirst objects number rule → ⊥ }
    ensures one { (objects : Objects) (number other : ℕ) (rule another : ImageRule)
        → BreaksFirst objects number rule → BreaksFirst objects other another
        → (number ≡ other) × (rule_number rule ≡ rule_number another) }
{}
