//! The rights that users have in an image.
ghost use Rattle.std.specs.Prelude.{◌≡◌, option_copied};
ghost use Rattle.gem_image.specs.Image.{objects_in};
ghost use Rattle.gem_image.specs.Rights.{rights_of, groups_of, rights_at, groups_at, right_in, right_on, right_on_segment};

use crate::image::Image;
use gem_object::{Body, Oid, Right, Rights, Text};

impl Image {
    /// The right that the user has on the object of this name. On a segment it is Write for its
    /// owner and Read for all others, whoever they are. On any other object it is what the object's
    /// segment gives the user, as `right_in` says. It is None where there is no such object. It
    /// takes no memory.
    pub fn right_on(&self, user: Oid, oid: Oid) -> Right
        ensures { result ≡ right_on (objects_in self.now) user oid }
    {
        let Some(object) = self.look(oid) else {
            return Right::None;
        };
        match &object.body {
            Body::Segment(rights) => right_on_segment(rights, user),
            _ => self.right_in(user, object.segment),
        }
    }

    /// The right that the segment gives the user on the objects that lie in it: the greatest of the
    /// owner's, where the user is the owner, those of the groups that the user is in, and the
    /// world's. It is None where there is no such segment or no such user. It takes no memory.
    pub fn right_in(&self, user: Oid, segment: Oid) -> Right
        ensures { result ≡ right_in (objects_in self.now) user segment }
    {
        let Some(rights) = self.rights_at(segment) else {
            return Right::None;
        };
        let Some(groups) = self.groups_at(user) else {
            return Right::None;
        };
        rights.right_of(user.number(), groups)
    }

    // The rights that the segment of this name gives.
    fn rights_at(&self, segment: Oid) -> Option<&Rights<Text>>
        ensures { option_copied result ≡ rights_at (objects_in self.now) segment }
    {
        rights_of(&self.look(segment)?.body)
    }

    // The groups in which the user of this name is.
    fn groups_at(&self, user: Oid) -> Option<&[Text]>
        ensures { option_copied result ≡ groups_at (objects_in self.now) user }
    {
        groups_of(&self.look(user)?.body)
    }
}

/// The rights that a body gives: a segment gives some. It takes no memory.
pub fn rights_of(body: &Body) -> Option<&Rights<Text>>
    ensures { option_copied result ≡ rights_of body.now }
{
    match body {
        Body::Segment(rights) => Some(rights),
        _ => None,
    }
}

/// The groups in which a body is: a user is in some. It takes no memory.
pub fn groups_of(body: &Body) -> Option<&[Text]>
    ensures { option_copied result ≡ groups_of body.now }
{
    match body {
        Body::User(user) => Some(user.groups.as_slice()),
        _ => None,
    }
}

/// The right that the user has on a segment that gives these rights: Write for its owner, Read for
/// all others. It takes no memory.
pub fn right_on_segment(rights: &Rights<Text>, user: Oid) -> Right
    ensures { result ≡ right_on_segment rights.now user }
{
    if user.number() == rights.owner {
        Right::Write
    } else {
        Right::Read
    }
}
