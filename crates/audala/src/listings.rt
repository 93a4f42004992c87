// The listing of a program image for C and Rust (01, 'Bench rows').
ghost use Rattle.std.specs.Prelude.{◌≡◌};
ghost use Rattle.listing.specs.Listings.{listing_of};
ghost use Rattle.audala.specs.Listed.{exported_listing, listed};

use crate::images::Copied;
use listing::image;
use types::refusal::Refusal;

// The listing of an image in the front of the output, and the count of its bytes; 13 where the output is shorter than any listing may be.
pub fn audala_listing(image: &[u8], output: &mut [u8]) -> Copied
    ensures value { result ≡ exported_listing (listing_of image.now) output.old }
    ensures output_after { output.new ≡ listed (listing_of image.now) output.old }
{
    if output.len() < image::LISTING_BYTES {
        return Copied::from(Refusal::NoRoom);
    }
    Copied::done(image::listing(image, output))
}
