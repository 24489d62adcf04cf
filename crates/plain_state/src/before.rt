//! Objects as they are before a transaction changes anything.
ghost use Rattle.std.specs.Prelude.{◌≡◌, option_map, option_copied, IfSome};
ghost use Rattle.gem_image.specs.Image.{contents_of, objects_in};
ghost use Rattle.gem_world.specs.World.{as_of, are_shared};
ghost use Rattle.plain_state.specs.AtHand.{IsUnchanged};

use crate::at_hand::Spot;
use gem_image::Image;
use gem_object::{Object, Oid};

/// The object of this name before anything was changed: a reduced-conflict one as of the view, any
/// other as of the place.
pub(crate) fn object_before<'a>(place: &'a Image, view: &'a Image, oid: Oid) -> Option<&'a Object>
    ensures { option_map contents_of (option_copied result)
        ≡ as_of (objects_in place.now oid) (objects_in view.now oid) }
{
    let object = place.look(oid)?;
    if object.body.is_shared() {
        if let Some(viewed) = view.look(oid) {
            return Some(viewed);
        }
    }
    Some(object)
}

/// Whether both have an object of this name, a reduced-conflict one.
pub(crate) fn are_shared(place: &Image, view: &Image, oid: Oid) -> bool
    ensures { result ≡ are_shared (objects_in place.now oid) (objects_in view.now oid) }
{
    match (place.look(oid), view.look(oid)) {
        (Some(object), Some(_)) => object.body.is_shared(),
        _ => false,
    }
}

/// Where the object of this name stands before anything was changed, if there is one.
pub(crate) fn spot_before(place: &Image, view: &Image, oid: Oid) -> Option<Spot>
    ensures { IfSome result (IsUnchanged (objects_in place.now oid) (objects_in view.now oid)) }
{
    let at_place = place.leaf(oid)?;
    if at_place.body.is_shared() {
        if let Some(at_view) = view.leaf(oid) {
            return Some(Spot::Before(at_view.clone().ok()?, true));
        }
    }
    Some(Spot::Before(at_place.clone().ok()?, false))
}
