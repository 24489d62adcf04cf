//! Commands.
ghost use Rattle.std.specs.Prelude.{◌≡◌, true, IfOk};
ghost use Rattle.gem_language.specs.Commands.{install_method, method_reply, selector_of};
ghost use Rattle.gem_language.specs.Install.{install};
ghost use Rattle.object_programs.specs.st_grammar.Grammar.{method};
ghost use Rattle.object_programs.specs.st_grammar_laws.TreeOf.{tree_of};
ghost use Rattle.object_programs.specs.Local.{nothing};
ghost use Rattle.object_programs.specs.Methods.{answers_to};
ghost use Rattle.gem_language.specs.tree_meaning.Place.{MadeBlock};
ghost use Rattle.running_objects.specs.Ran.{Ran};
ghost use Rattle.st_commands.specs.Replies.{got, RepliedBy, Replied};

use crate::limits::SOURCE_LIMIT;
use crate::reply::{Reply, reply_to_fault, reply_to_method};
use gem_object::Text;
use running_objects::{Objects, Stop};
use st_parser::parse_method;
use st_tree::Tree;
use std::alloc::{AllocError, Global};

/// A command on objects.
#[derive(Debug, Drop)]
pub enum Command {
    /// A chunk.
    Chunk {
        /// Whether its value is printed.
        prints: bool,
        /// Its text.
        text: Text,
    },
    /// A method for a class.
    Method {
        /// Whether it is for the class side.
        class_side: bool,
        /// The global that names the class.
        class: Text,
        /// Its source.
        source: Text,
    },
}

/// Puts the source of a method into the class that a global names.
///
/// # Errors
///
/// Where memory ran out, or the source has 2^32 bytes or more: then only what every run keeps is
/// known.
pub fn install_source<O: Objects>(
    alloc: Global,
    objects: &mut O,
    class_side: bool,
    class: &Text,
    source: &Text,
) -> Result<Reply, AllocError>
    ensures { Replied (install_method class_side class.now source.now) (O.seen objects.old) result
        (O.seen objects.new) }
{
    let bytes = source.bytes();
    if bytes.len() >= SOURCE_LIMIT {
        return Err(AllocError);
    }
    match parse_method(alloc, bytes) {
        Ok(tree) => install_read_method(alloc, objects, class_side, class, source, &tree),
        Err(fault) => reply_to_fault(fault),
    }
}

/// The reply to a method that was read.
fn install_read_method<O: Objects>(
    alloc: Global,
    objects: &mut O,
    class_side: bool,
    class: &Text,
    source: &Text,
    tree: &Tree,
) -> Result<Reply, AllocError>
    requires { answers_to (selector_of tree.now) (tree_of method source.now) ≡ true }
    ensures { RepliedBy (method_reply class_side class.now source.now tree.now)
        (O.seen objects.old) result (O.seen objects.new) }
{
    let ended = install_method_of(alloc, objects, class_side, class, source, tree);
    reply_to_method(ended)
}

/// Installs a method that was read; its selector.
fn install_method_of<O: Objects>(
    alloc: Global,
    objects: &mut O,
    class_side: bool,
    class: &Text,
    source: &Text,
    tree: &Tree,
) -> Result<Text, Stop>
    requires { answers_to (selector_of tree.now) (tree_of method source.now) ≡ true }
    ensures { Ran (method_reply class_side class.now source.now tree.now) (O.seen objects.old)
        (nothing MadeBlock) (got result) (O.seen objects.new) (nothing MadeBlock) }
{
    let selector = selector_of(alloc, tree)?;
    install(objects, class_side, class, &selector, source)?;
    Ok(selector)
}

/// Puts the source of a method into the class that a global names, with nothing local.
fn install<O: Objects>(
    objects: &mut O,
    class_side: bool,
    class: &Text,
    selector: &Text,
    source: &Text,
) -> Result<(), Stop>
    requires { answers_to selector.now (tree_of method source.now) ≡ true }
    ensures { Ran (install class_side class.now selector.now source.now) (O.seen objects.old)
        (nothing MadeBlock) result (O.seen objects.new) (nothing MadeBlock) }
{
    st_outside::install(objects, class_side, class, selector, source)
}

/// A copy of the selector of a method that was read.
fn selector_of(alloc: Global, tree: &Tree) -> Result<Text, AllocError>
    ensures { IfOk result (λ selector. selector ≡ selector_of tree.now) }
{
    match &tree.selector {
        Some(selector) => selector.clone(),
        None => Ok(Text::of(Vec::new(alloc))),
    }
}
