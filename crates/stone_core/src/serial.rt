//! The serials in the names of an image's objects.
ghost use Rattle.std.specs.Prelude.{◌≡◌, ◌<◌, ◌^◌};
ghost use Rattle.gem_meaning.specs.Opened.{largest_serial};

use gem_image::Image;

/// The largest serial in the names of the image's objects, or 0 where there are none. The first
/// session of a Stone that is opened with the image has the next one.
///
/// It looks for a name once for each serial that has one, and takes no memory; the contract doesn't
/// say so.
pub fn largest_serial(image: &Image) -> u32
    ensures serial { result ≡ largest_serial image.now }
    ensures bound { result < 2 ^ 24 }
{
    let mut largest = 0;
    while let Some(entry) = image.next_from((largest as u64 + 1) * (1 << 24)) {
        largest = entry.0.serial();
    }
    largest
}
