// Reads a program image on standard input and prints its listing, or `refused n` (01, 'Bench rows').
#![tactic(auto)]

use files::Failure;
use listing::image;

// One byte more than an image may have, so that a longer one is told from the longest.
const IMAGE: usize = 32769;

const HELP: &str = "audala_list < IMAGE\n\
    \n\
    Reads a program image and prints its listing: a head with the counts of\n\
    structs, steps and commands and the depth, then a line for each command:\n\
    struct, step name, position, command. Prints 'refused' and the number for\n\
    an image that is refused.\n\
    docs/FORMAT.md has the image byte by byte, and says what each number means.";

fn run(rt: &HostRuntime) -> Result<(), Failure> {
    let mut input = [0u8; IMAGE];
    let length = files::input(rt, &mut input)?;
    let mut text = [0u8; image::LISTING_BYTES];
    let end = image::listing(&input[..length], &mut text);
    files::output(rt, &text[..end])
}

fn main(rt: HostRuntime) {
    match run(&rt) {
        Ok(()) => {}
        Err(Failure::Usage) => {
            let _ = eprintln!(rt; "{HELP}");
        }
        Err(why) => {
            let _ = eprintln!(rt; "{why}");
        }
    }
}
