// What the listing program prints of an input: the listing of a program image, or its refusal (01, 'Bench rows').
ghost use Rattle.std.specs.Prelude.{◌≤◌, length};
ghost use Rattle.text.specs.Listing.{Placed};
ghost use Rattle.listing.specs.Listings.{listing_bytes, listing_of};

use directory::rows::ROWS;
use step_lines::program;
use text::lines::row;

// Bytes that hold any listing: a head and a line for each of 1,024 commands.
pub const LISTING_BYTES: usize = 131072;

// The listing of an image, in the front of the text.
pub fn listing(image: &[u8], text: &mut [u8]) -> usize
    requires { listing_bytes ≤ length text.old }
    ensures placed { Placed (listing_of image.now) text.old 0 result text.new }
    ensures upper_bound { result ≤ length text.old }
{
    let mut stream = [0u8; types::PROGRAM_BLOCKS * blocks::PAYLOAD_SIZE];
    let mut counts = [0u8; types::MAX_STRUCTS];
    let mut types = [0u8; types::MAX_STRUCTS * types::MAX_PARAMS];
    let mut rows = [0u16; ROWS];
    let r = load::program(image, &mut stream, &mut counts, &mut types, &mut rows);
    let p = match r {
        Ok(p) => p,
        Err(refusal) => return row(text, 0, b"refused", &[u64::from(u8::from(refusal))]),
    };
    let n = p.length;
    let structs = p.structs as usize;
    let mut list = [0u64; types::MAX_COMMANDS];
    emit_steps::program(&stream[..n], &counts[..structs], p.at, &mut list);
    let head = [
        p.structs as u64,
        p.steps as u64,
        p.commands as u64,
        p.depth as u64,
    ];
    let k = row(text, 0, b"audala", &head);
    program(&rows, p.steps as usize, &list, text, k)
}
