//! What follows from the definitions alone. Each law is the contract of a function that does
//! nothing.
ghost use Rattle.std.specs.Prelude.{◌≡◌, true};
ghost use Rattle.std.specs.List.{AllByRecursion, list_all};
ghost use Rattle.gem_object.specs.texts.Bytes.{Bytes};
ghost use Rattle.gem_object.specs.texts.NameBytes.{is_name_byte};
ghost use Rattle.gem_replies.specs.Escapes.{IsShown, escaped};

/// A text from the image stays within its line: no byte below 32 and no 127 is shown of it.
pub fn within_its_line()
    ensures { (text : Bytes) → AllByRecursion IsShown (escaped text) }
{}

/// Texts that are shown alike are the same.
pub fn shown_apart()
    ensures { (text other : Bytes) → escaped text ≡ escaped other → text ≡ other }
{}

/// A name is shown as it is.
pub fn names_as_they_are()
    ensures { (name : Bytes) → list_all is_name_byte name ≡ true → escaped name ≡ name }
{}
