// Images of blocks for C and Rust: a stream out of its blocks, and into them (01, 'Blocks'). A caller says how many blocks are allowed: 64 for
// a program, 17 for a table.
ghost use Rattle.std.specs.Prelude.{◌≡◌, length};
ghost use Rattle.blocks.specs.Images.{stream, read, read_into, write, written_into};
ghost use Rattle.types.specs.Refusals.{number};
ghost use Rattle.audala.specs.Images.{copied, exported_read, exported_write};

use blocks::{ReadError, WriteError};
use types::refusal::Refusal;

// What reading or writing an image answers: a number, and how many bytes of the stream or blocks of the image were written, 0 after a refusal.
#[repr(C)]
#[derive(Clone, Copy)]
pub struct Copied {
    pub number: u32,
    pub count: usize,
}

impl Copied {
    // So many bytes or blocks.
    pub fn done(count: usize) -> Copied
        ensures { result ≡ copied 0 count }
    {
        Copied { number: 0, count }
    }
}

impl From<Refusal> for Copied {
    ghost from_gives = { λ r answer. answer ≡ copied (number r) 0 };

    fn from(refusal: Refusal) -> Copied {
        Copied {
            number: u32::from(u8::from(refusal)),
            count: 0,
        }
    }
}

// What reading answers, as the library hands it over.
impl From<Result<usize, ReadError>> for Copied {
    ghost from_gives = { λ r answer. answer ≡ exported_read r };

    #[tactic(auto, unfolding(crate::specs::Images::exported_read))]
    fn from(read: Result<usize, ReadError>) -> Copied {
        match read {
            Ok(n) => Copied::done(n),
            Err(ReadError::Faulty(fault)) => Copied::from(blocks::program_number(fault)),
            Err(ReadError::Short) => Copied::from(Refusal::NoRoom),
        }
    }
}

// What writing answers, as the library hands it over.
impl From<Result<usize, WriteError>> for Copied {
    ghost from_gives = { λ r answer. answer ≡ exported_write r };

    #[tactic(auto, unfolding(crate::specs::Images::exported_write))]
    fn from(written: Result<usize, WriteError>) -> Copied {
        match written {
            Ok(n) => Copied::done(n),
            Err(WriteError::Length) => Copied::from(Refusal::ProgramLength),
            Err(WriteError::Short) => Copied::from(Refusal::NoRoom),
        }
    }
}

// The stream of an image of at most so many blocks, in the front of the buffer.
pub fn audala_read_image(image: &[u8], most: usize, buffer: &mut [u8]) -> Copied
    ensures value { result ≡ exported_read (read most image.now (length buffer.old)) }
    ensures buffer_after { buffer.new
        ≡ read_into (read most image.now (length buffer.old)) (stream image.now) buffer.old }
{
    Copied::from(blocks::read_image(image, most, buffer))
}

// The image of a stream in at most so many blocks, in the front of the output.
pub fn audala_write_image(bytes: &[u8], most: usize, output: &mut [u8]) -> Copied
    ensures value { result ≡ exported_write (write most (length bytes.now) (length output.old)) }
    ensures output_after { output.new
        ≡ written_into (write most (length bytes.now) (length output.old)) bytes.now output.old }
{
    Copied::from(blocks::write_image(bytes, most, output))
}
