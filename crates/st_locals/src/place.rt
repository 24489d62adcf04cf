//! Places.
ghost use Rattle.std.specs.Prelude.{◌≡◌, ◌++◌, ◌∷◌, [], IfOk};
ghost use Rattle.tree_meaning.specs.Bodies.{method_place, block_place};
ghost use Rattle.tree_meaning.specs.Parts.{with_variables};

use crate::scope::ScopeNames;
use gem_object::Text;
use st_tree::{BlockTree, Tree};
use std::alloc::AllocError;
use std::marker::Model;

/// Where a part of a tree stands: the variables that are in scope, and whether it is in a block
/// that is made. Contracts see the scopes with the innermost one first.
#[derive(Drop)]
pub struct Place {
    pub(crate) scopes: Vec<ScopeNames>,
    in_block: bool,
}

impl Model for Place {
    ghost use Rattle.std.specs.Prelude.{reverse};
    ghost use Rattle.tree_meaning.specs.Place.{Place as TreePlace};
    ghost use Rattle.st_locals.specs.Codes.{place_code};

    ghost Value = { TreePlace };

    ghost coded = { place_code };

    ghost view = { λ place. record {
      names = reverse place.scopes.items;
      in_block = place.in_block;
    } };
}

impl Place {
    /// Where the statements of a method or a chunk stand.
    pub fn of_method(tree: &Tree) -> Result<Place, AllocError>
        ensures { IfOk result (λ place. place ≡ method_place tree.now) }
    {
        let names = ScopeNames::of(&tree.params, &tree.temps)?;
        Ok(Place {
            scopes: vec![in *tree.params.allocator(); names]?,
            in_block: false,
        })
    }

    /// This place once the variables of a block that is evaluated here are in scope. A block
    /// without variables has no scope of its own.
    pub fn with_variables(&self, params: &Vec<Text>, temps: &Vec<Text>) -> Result<Place, AllocError>
        ensures { IfOk result (λ place. place
            ≡ with_variables (params.now.items ++ temps.now.items) self.now) }
    {
        let names = ScopeNames::of(params, temps)?;
        if names.names.is_empty() {
            return self.clone();
        }
        Ok(Place {
            scopes: one_more(&self.scopes, names)?,
            in_block: self.in_block,
        })
    }

    /// Whether the place is in a block that is made.
    pub fn is_in_block(&self) -> bool
        ensures { result ≡ self.now.in_block }
    {
        self.in_block
    }
}

impl Clone for Place {
    ghost is_clone = { λ place copy. copy ≡ place };

    fn clone(&self) -> Result<Place, AllocError> {
        Ok(Place {
            scopes: copy_scopes(&self.scopes)?,
            in_block: self.in_block,
        })
    }
}

fn copy_scopes(scopes: &Vec<ScopeNames>) -> Result<Vec<ScopeNames>, AllocError>
    ensures { IfOk result (λ copies. copies.items ≡ scopes.now.items) }
{
    scopes.clone()
}

/// Where the statements of a made block stand, if the block stands at this place.
pub fn block_place(tree: &BlockTree, place: &Place) -> Result<Place, AllocError>
    ensures { IfOk result (λ inner. inner ≡ block_place tree.now place.now) }
{
    let names = ScopeNames::of(&tree.params, &tree.temps)?;
    Ok(Place {
        scopes: one_more(&place.scopes, names)?,
        in_block: true,
    })
}

/// Copies of these scopes, and a scope more inside them.
fn one_more(scopes: &Vec<ScopeNames>, names: ScopeNames) -> Result<Vec<ScopeNames>, AllocError>
    ensures { IfOk result (λ all. all.items ≡ scopes.now.items ++ names ∷ []) }
{
    let mut all = copy_scopes(scopes)?;
    all.push(names)?;
    Ok(all)
}
