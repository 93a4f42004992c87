// Reads a stream as decimal numbers on standard input and writes its image on standard output (01, 'Blocks'; docs/FORMAT.md, 'Numbers as text').
// Where there is none, a line on standard error says why and nothing is written.
#![tactic(auto)]

use blocks::{BLOCK_SIZE, WriteError};
use numbers::{BytesError, ScanError};
use std::fmt;

// Four bytes of text for each number of the longest stream, and as many again for blanks and line ends; one more, so that a longer text is told.
const TEXT: usize = 258049;

const STREAM: usize = types::PROGRAM_BLOCKS * blocks::PAYLOAD_SIZE;

const IMAGE: usize = types::PROGRAM_BLOCKS * BLOCK_SIZE;

const HELP: &str = "audala_image < NUMBERS > IMAGE\n\
    \n\
    Reads the stream of a program or of a table as decimal numbers from 0 to\n\
    255, parted by blanks, commas or line ends, and writes its image: blocks\n\
    of 512 bytes. Where a number is over 255, a byte is no digit and parts no\n\
    numbers, or there are no numbers or more than 32256, nothing is written\n\
    and a line on standard error says so.\n\
    docs/FORMAT.md has the streams byte by byte.";

// Why there is no image.
#[derive(Debug, Drop)]
enum Failure {
    Files(files::Failure),
    Text,
    Numbers(ScanError),
    Bytes(BytesError),
    Image(WriteError),
}

impl From<files::Failure> for Failure {
    fn from(why: files::Failure) -> Failure {
        Failure::Files(why)
    }
}

impl From<ScanError> for Failure {
    fn from(why: ScanError) -> Failure {
        Failure::Numbers(why)
    }
}

impl From<BytesError> for Failure {
    fn from(why: BytesError) -> Failure {
        Failure::Bytes(why)
    }
}

impl From<WriteError> for Failure {
    fn from(why: WriteError) -> Failure {
        Failure::Image(why)
    }
}

impl fmt::Display for Failure {
    fn fmt<W: fmt::Write>(&self, f: &mut fmt::Formatter<W>) -> fmt::Result {
        match self {
            Failure::Files(files::Failure::Usage) => write!(f, "{HELP}"),
            Failure::Files(why) => write!(f, "{why}"),
            Failure::Text => write!(f, "audala_image: the text has more than 258048 bytes"),
            Failure::Numbers(ScanError::Strange(i)) => {
                write!(
                    f,
                    "audala_image: byte {i} of the text, from 0, belongs to no number"
                )
            }
            Failure::Numbers(ScanError::Large(i)) => {
                write!(
                    f,
                    "audala_image: the number at byte {i} of the text is over 4294967295"
                )
            }
            Failure::Numbers(ScanError::Long) | Failure::Bytes(BytesError::Long) => {
                write!(f, "audala_image: more than 32256 numbers")
            }
            Failure::Bytes(BytesError::Large(i)) => {
                write!(f, "audala_image: number {i} is not from 0 to 255")
            }
            Failure::Image(WriteError::Length) => write!(f, "audala_image: no numbers"),
            Failure::Image(WriteError::Short) => write!(f, "audala_image: no room"),
        }
    }
}

// The stream whose numbers are the text, as an image; how many blocks.
fn image(text: &[u8], image: &mut [u8]) -> Result<usize, Failure> {
    let mut words = [0u64; STREAM];
    let count = numbers::scan(text, &mut words)?;
    let mut stream = [0u8; STREAM];
    let length = numbers::as_bytes(&words[..count], &mut stream)?;
    Ok(blocks::write_image(&stream[..length], types::PROGRAM_BLOCKS, image)?)
}

fn run(rt: &HostRuntime) -> Result<(), Failure> {
    let mut text = [0u8; TEXT];
    let length = files::input(rt, &mut text)?;
    if length == TEXT {
        return Err(Failure::Text);
    }
    let mut bytes = [0u8; IMAGE];
    let blocks = image(&text[..length], &mut bytes)?;
    let end = blocks.saturating_mul(BLOCK_SIZE).min(IMAGE);
    files::output(rt, &bytes[..end])?;
    Ok(())
}

fn main(rt: HostRuntime) {
    if let Err(why) = run(&rt) {
        let _ = eprintln!(rt; "{why}");
    }
}
