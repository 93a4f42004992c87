// Images of blocks and their streams, for any number of blocks (01, 'Blocks'): what is wrong with an image, the stream of an image, the image of a
// stream. Both work in memory that the caller lends, and a refusal writes nothing there. A caller says how many blocks are allowed; where it says more
// than 65,536, the number of indices that two bytes hold, that many are.
#![tactic(auto)]

mod reading;
mod writing;

ghost use Rattle.std.specs.Prelude.{◌≡◌, ◌*◌, ◌≤◌, length};
ghost use Rattle.types.specs.Refusals.{number};
ghost use Rattle.block.specs.Block.{payload_size};
ghost use Rattle.blocks.specs.Images.{fault, stream, read, read_into, opened, opened_into, write, written_into};
ghost use Rattle.blocks.specs.Images.{program_number, table_number};

use block::Fault;
use types::refusal::Refusal;

pub const BLOCK_SIZE: usize = block::BLOCK_SIZE;

pub const PAYLOAD_SIZE: usize = block::PAYLOAD_SIZE;

// Why an image was not read, and nothing was written: its fault, or a buffer that is too short.
#[derive(Clone, Copy, PartialEq, Eq, Debug)]
pub enum ReadError {
    Faulty(Fault),
    Short,
}

// Why a stream was not written as an image, and nothing was written: a length that no image holds, or an output that is too short.
#[derive(Clone, Copy, PartialEq, Eq, Debug)]
pub enum WriteError {
    Length,
    Short,
}

// 01's number of a program image's fault.
pub fn program_number(fault: Fault) -> Refusal
    ensures { number result ≡ program_number fault }
{
    match fault {
        Fault::Length => Refusal::ProgramLength,
        Fault::Sum => Refusal::BlockSums,
        Fault::Layout => Refusal::BlockLayout,
    }
}

// 01's number of a table image's fault.
pub fn table_number(fault: Fault) -> Refusal
    ensures { number result ≡ table_number fault }
{
    match fault {
        Fault::Length => Refusal::TableLength,
        Fault::Sum | Fault::Layout => Refusal::TableBlock,
    }
}

// What is wrong with an image where max blocks are allowed.
pub fn image_fault(image: &[u8], max: usize) -> Option<Fault>
    ensures { result ≡ fault max image.now }
{
    if !reading::length_right(image.len(), max) {
        return Some(Fault::Length);
    }
    reading::first_fault(image, image.len() / BLOCK_SIZE)
}

// The length of the stream of an image where max blocks are allowed, with the stream in the front of the buffer. Every block is looked at before
// the first byte is written.
pub fn read_image(image: &[u8], max: usize, buffer: &mut [u8]) -> Result<usize, ReadError>
    ensures value { result ≡ read max image.now (length buffer.old) }
    ensures buffer_after { buffer.new ≡ read_into result (stream image.now) buffer.old }
{
    if let Some(fault) = image_fault(image, max) {
        return Err(ReadError::Faulty(fault));
    }
    let n = image.len() / BLOCK_SIZE;
    let length = reading::stream_length(image, n);
    if buffer.len() < length {
        return Err(ReadError::Short);
    }
    reading::join(image, n, buffer);
    Ok(length)
}

// The same in a buffer that has room for the payloads of as many blocks: only a fault is left to refuse.
pub fn open_image(image: &[u8], max: usize, buffer: &mut [u8]) -> Result<usize, Fault>
    requires { payload_size * max ≤ length buffer.old }
    ensures value { result ≡ opened (fault max image.now) (length (stream image.now)) }
    ensures buffer_after { buffer.new ≡ opened_into result (stream image.now) buffer.old }
{
    match read_image(image, max, buffer) {
        Ok(n) => Ok(n),
        Err(ReadError::Faulty(fault)) => Err(fault),
        Err(ReadError::Short) => Err(Fault::Length),
    }
}

// How many blocks the image of a stream has where max are allowed, with the image in the front of the output.
pub fn write_image(stream: &[u8], max: usize, out: &mut [u8]) -> Result<usize, WriteError>
    ensures value { result ≡ write max (length stream.now) (length out.old) }
    ensures out_after { out.new ≡ written_into result stream.now out.old }
{
    let length = stream.len();
    if !writing::stream_right(length, max) {
        return Err(WriteError::Length);
    }
    let n = length.div_ceil(PAYLOAD_SIZE);
    if out.len() < BLOCK_SIZE * n {
        return Err(WriteError::Short);
    }
    writing::put_blocks(stream, n, out);
    Ok(n)
}
