//! What follows from the definitions alone. Each law is the contract of a function that does
//! nothing.
ghost use Rattle.std.specs.Prelude.{◌≡◌, ◌≢◌, ◌⊎◌, ◌≤◌, ◌+◌, ◌++◌, ◌∷◌, [], ℕ, Some, None, true, false};
ghost use Rattle.gem_update.specs.declared.update.Update.{Update};
ghost use Rattle.gem_image.specs.gem_object.Kinds.{is_shared};
ghost use Rattle.gem_image.specs.Image.{Image, Contents, objects_in};
ghost use Rattle.gem_image.specs.Rights.{right_on};
ghost use Rattle.gem_world.specs.World.{Setting, World, untouched, next_name, shown, is_drawn, is_made, is_private, touch};
ghost use Rattle.gem_world.specs.Access.{Access, a_read, a_write, IsTouched, IsWritten, with_touches, is_allowed, accessed, right_at};
ghost use Rattle.gem_world.specs.Changes.{put, make, note, updates_on};

/// A touch is recorded where the name isn't private, else nothing changes. No touch is forgotten.
pub fn touches_are_kept()
    ensures recorded { (name : ℕ) (setting : Setting) (world : World)
        → is_private name setting world ≡ false → IsTouched name (touch name setting world) }
    ensures private { (name : ℕ) (setting : Setting) (world : World)
        → is_private name setting world ≡ true → touch name setting world ≡ world }
    ensures kept { (name other : ℕ) (setting : Setting) (world : World)
        → IsTouched other world → IsTouched other (touch name setting world) }
    ensures access { (name other : ℕ) (setting : Setting) (world : World)
        → IsTouched other world → IsTouched other (with_touches name setting world) }
{}

/// An object that was put, or made, is seen at its name, and at every other name what was seen
/// before.
pub fn changes_are_shown()
    ensures put { (name : ℕ) (object : Contents) (setting : Setting) (world : World)
        → shown name setting (put name object world) ≡ Some object }
    ensures put_elsewhere { (name other : ℕ) (object : Contents) (setting : Setting) (world : World)
        → other ≢ name → shown other setting (put name object world) ≡ shown other setting world }
    ensures made { (object : Contents) (setting : Setting) (world : World)
        → shown (next_name setting world) setting (make object setting world) ≡ Some object }
    ensures made_elsewhere { (other : ℕ) (object : Contents) (setting : Setting) (world : World)
        → other ≢ next_name setting world
        → shown other setting (make object setting world) ≡ shown other setting world }
{}

/// A refused access leaves its touches alone, and so does a read. An allowed write of an ordinary
/// object whose name wasn't drawn here leaves it written.
pub fn accesses_write()
    ensures refused { (access : Access) (name : ℕ) (setting : Setting) (world : World)
        → is_allowed access name setting world ≡ false
        → accessed access name setting world ≡ with_touches name setting world }
    ensures read { (name : ℕ) (setting : Setting) (world : World)
        → accessed a_read name setting world ≡ with_touches name setting world }
    ensures written { (name : ℕ) (object : Contents) (setting : Setting) (world : World)
        → is_allowed a_write name setting world ≡ true
        → shown name setting world ≡ Some object → is_shared object.body ≡ false
        → is_drawn name setting world ≡ false
        → IsWritten name setting (accessed a_write name setting world) }
{}

/// A transaction whose place is its view has at first the rights that its user has in that image.
pub fn rights_at_first()
    ensures { (image : Image) (user serial first name : ℕ)
        → right_at name
        (record { place = image; view = image; user = user; serial = serial; first = first })
        (untouched first)
        ≡ right_on (objects_in image) user name }
{}

/// What is private: what was made here, and a reduced-conflict object that place and view have.
pub fn what_is_private()
    ensures made { (name : ℕ) (setting : Setting) (world : World)
        → is_made name setting world ≡ true → is_private name setting world ≡ true }
    ensures shared { (name : ℕ) (object viewed : Contents) (setting : Setting) (world : World)
        → objects_in setting.place name ≡ Some object → objects_in setting.view name ≡ Some viewed
        → is_shared object.body ≡ true → is_private name setting world ≡ true }
    ensures ordinary { (name : ℕ) (object : Contents) (setting : Setting) (world : World)
        → objects_in setting.place name ≡ Some object → is_shared object.body ≡ false
        → is_made name setting world ≡ false → is_private name setting world ≡ false }
    ensures nothing { (name : ℕ) (setting : Setting) (world : World)
        → objects_in setting.place name ≡ None
        → is_made name setting world ≡ false → is_private name setting world ≡ false }
{}

/// What an object is before it is changed.
pub fn what_is_read()
    ensures ordinary { (name : ℕ) (object : Contents) (setting : Setting)
        → objects_in setting.place name ≡ Some object → is_shared object.body ≡ false
        → shown name setting (untouched setting.first) ≡ Some object }
    ensures shared { (name : ℕ) (object viewed : Contents) (setting : Setting)
        → objects_in setting.place name ≡ Some object → objects_in setting.view name ≡ Some viewed
        → is_shared object.body ≡ true → shown name setting (untouched setting.first) ≡ Some viewed }
    ensures later { (name : ℕ) (object : Contents) (setting : Setting)
        → objects_in setting.place name ≡ Some object → objects_in setting.view name ≡ None
        → shown name setting (untouched setting.first) ≡ Some object }
    ensures nothing { (name : ℕ) (setting : Setting)
        → objects_in setting.place name ≡ None → shown name setting (untouched setting.first) ≡ None }
{}

/// A touch changes the touches alone; an access changes nothing that is shown.
pub fn accesses_show_the_same()
    ensures touch { (name : ℕ) (setting : Setting) (world : World)
        → ((touch name setting world).changes ≡ world.changes)
        × ((touch name setting world).updates ≡ world.updates)
        × ((touch name setting world).next ≡ world.next) }
    ensures access { (access : Access) (name other : ℕ) (setting : Setting) (world : World)
        → shown other setting (accessed access name setting world) ≡ shown other setting world }
{}

/// What an access touches: the object, its segment and the user's profile.
pub fn what_is_asked()
    ensures { (name other : ℕ) (object : Contents) (setting : Setting) (world : World)
        → shown name setting world ≡ Some object
        → (other ≡ name) ⊎ ((other ≡ object.segment) ⊎ (other ≡ setting.user))
        → is_private other setting world ≡ false
        → IsTouched other (with_touches name setting world) }
{}

/// Names are drawn one after the other.
pub fn names_are_drawn()
    ensures next { (object : Contents) (setting : Setting) (world : World)
        → (make object setting world).next ≡ world.next + 1 }
    ensures made { (object : Contents) (setting : Setting) (world : World)
        → setting.first ≤ world.next
        → is_made (next_name setting world) setting (make object setting world) ≡ true }
    ensures none { (name : ℕ) (setting : Setting)
        → is_made name setting (untouched setting.first) ≡ false }
    ensures put { (name : ℕ) (object : Contents) (setting : Setting) (world : World)
        → is_drawn name setting world ≡ false
        → is_made name setting (put name object world) ≡ false }
{}

/// Updates are noted in their order, but for objects that were made here.
pub fn updates_are_noted()
    ensures made { (name : ℕ) (update : Update) (setting : Setting) (world : World)
        → is_made name setting world ≡ true → note name update setting world ≡ world }
    ensures noted { (name : ℕ) (update : Update) (setting : Setting) (world : World)
        → is_made name setting world ≡ false
        → updates_on name (note name update setting world).updates
        ≡ updates_on name world.updates ++ update ∷ [] }
{}
