//! What follows from the definitions alone. Each law is the contract of a function that does
//! nothing.
ghost use Rattle.std.specs.Prelude.{◌≡◌, ◌↔◌, ◌<◌, ◌≤◌, ℕ, IsSome, IfSome};
ghost use Rattle.std.specs.FinMap as map;
ghost use Rattle.gem_sound.specs.Sound.{IsSoundImage};
ghost use Rattle.kernel_image.specs.Objects.{kernel_image, kernel_objects};

/// The image of the kernel is sound.
pub fn kernel_is_sound()
    ensures { IsSoundImage kernel_image }
{}

/// What stands at each name of the image of the kernel: 35 objects, with the numbers from 1 to 35.
pub fn kernel_by_names()
    ensures objects { (number : ℕ) → map.get kernel_image number ≡ kernel_objects number }
    ensures some { (number : ℕ) → IsSome (kernel_objects number)
        ↔ ((0 < number) × (number ≤ 35)) }
{}

/// No commit has changed an object of the kernel.
pub fn kernel_is_unchanged()
    ensures { (number : ℕ) → IfSome (map.get kernel_image number) (λ object. object.changed ≡ 0) }
{}
