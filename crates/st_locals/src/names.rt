//! What a name stands for at a place.
ghost use Rattle.std.specs.Prelude.{◌≡◌, reverse};
ghost use Rattle.tree_meaning.specs.Names.{index_of, variable_in, where_is, is_super};

use crate::place::Place;
use crate::scope::ScopeNames;
use gem_object::Text;
use tree_meaning::{Singleton, Where};

/// Whether a name is `super`.
pub fn is_super(name: &Text) -> bool
    ensures { result ≡ is_super name.now }
{
    name.bytes() == b"super".as_slice()
}

/// What a name stands for at a place. An inner variable hides an outer one of the same name. It
/// takes no memory.
#[tactic(auto, using(crate::proofs::NameTests::names_mean))]
pub fn where_is(name: &Text, place: &Place) -> Where
    ensures { result ≡ where_is name.now place.now.names }
{
    let bytes = name.bytes();
    if bytes == b"self".as_slice() {
        Where::Receiver
    } else if is_super(name) {
        Where::Receiver
    } else if bytes == b"nil".as_slice() {
        Where::Fixed(Singleton::Nil)
    } else if bytes == b"true".as_slice() {
        Where::Fixed(Singleton::True)
    } else if bytes == b"false".as_slice() {
        Where::Fixed(Singleton::False)
    } else {
        variable_in(bytes, &place.scopes)
    }
}

/// The variable of a name among scopes of which the last one is the innermost.
#[tactic(auto, using(crate::proofs::Searches::scopes_in_turn))]
fn variable_in(name: &[u8], scopes: &[ScopeNames]) -> Where
    ensures { result ≡ variable_in name.now (reverse scopes.now) }
{
    let mut depth = 0;
    while depth < scopes.len() {
        let scope = &scopes[scopes.len() - 1 - depth];
        if let Some(index) = index_in(name, scope) {
            return Where::Variable(depth, index);
        }
        depth += 1;
    }
    Where::OutOfScope
}

fn index_in(name: &[u8], scope: &ScopeNames) -> Option<usize>
    ensures { result ≡ index_of name.now scope.now }
{
    index_of(name, &scope.names)
}

/// Where a name stands first among these.
fn index_of(name: &[u8], names: &[Text]) -> Option<usize>
    ensures { result ≡ index_of name.now names.now }
{
    let mut index = 0;
    while index < names.len() {
        if name == names[index].bytes() {
            return Some(index);
        }
        index += 1;
    }
    None
}
