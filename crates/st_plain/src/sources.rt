//! The trees of methods' sources.
ghost use Rattle.std.specs.Prelude.{IfOk};
ghost use Rattle.st_commands.specs.Sources.{IsTreeOf};

use gem_object::Text;
use st_commands::SOURCE_LIMIT;
use st_parser::{ParseFault, parse_method};
use st_tree::Tree;
use std::alloc::{AllocError, Global};

/// The tree of a method's source, where it has one. A source of 2^32 bytes or more is as if memory
/// had run out.
pub(crate) fn method_tree(alloc: Global, source: &Text) -> Result<Option<Tree>, AllocError>
    ensures { IfOk result (IsTreeOf source.now) }
{
    let text = source.bytes();
    if text.len() >= SOURCE_LIMIT {
        return Err(AllocError);
    }
    match parse_method(alloc, text) {
        Ok(tree) => Ok(Some(tree)),
        Err(ParseFault::Rule { .. }) => Ok(None),
        Err(ParseFault::NoMemory) => Err(AllocError),
    }
}
