// The library's functions as exports for C and Rust, with their clauses (include/audala.h declares them).
#![tactic(auto)]

ghost use Rattle.std.specs.Prelude.{◌≡◌, length};
ghost use Rattle.blocks.specs.Images.{stream, read, read_into, write, written_into};
ghost use Rattle.verdict.specs.Verdict.{check_verdict, check_list};
ghost use Rattle.run.specs.Entry.{run_report, run_output, run_list};
ghost use Rattle.counts.specs.CountEntry.{count, count_list};
ghost use Rattle.source.specs.TextReader.{text_number, text_blocks, text_output};
ghost use Rattle.step_part.specs.StepPart.{step_place};
ghost use Rattle.text_place.specs.Place.{place};
ghost use Rattle.listing.specs.Listings.{listing_of};
ghost use Rattle.trace.specs.TraceText.{trace_text};
ghost use Rattle.trace.specs.TracePage.{traced_number, traced_turns, paged};
ghost use Rattle.audala.specs.Exported.{exported, exported_part, exported_report, exported_page};
ghost use Rattle.audala.specs.Images.{copied, exported_read, exported_write};
ghost use Rattle.audala.specs.Listed.{exported_listing, listed};
ghost use Rattle.audala.specs.Counted.{exported_counts};

use audala::images::Copied;
use audala::places::Stopped;
use audala::tallies::Counts;
use audala::traces::Traced;
use audala::{Answer, Part, Report};

// A program image to a verdict, and its commands to the list.
#[unsafe(no_mangle)]
pub extern "C" fn audala_check(image: &[u8], list: &mut [u64]) -> Answer
    ensures value { result ≡ exported (check_verdict image.now list.old) }
    ensures list_after { list.new ≡ check_list image.now list.old }
{
    audala::audala_check(image, list)
}

// The part of the list for a step; it begins at 0 and has 0 places where the image or the list is refused or the step is not there.
#[unsafe(no_mangle)]
pub extern "C" fn audala_step(image: &[u8], list: &[u64], structure: u8, name: u8) -> Part
    ensures { result ≡ exported_part (step_place image.now list.now structure name) }
{
    audala::audala_step(image, list, structure, name)
}

// A program image, a table image and turn bytes to a report, the last table to the output and the commands to the list.
#[unsafe(no_mangle)]
pub extern "C" fn audala_run(
    program: &[u8],
    table: &[u8],
    turns: &[u8],
    output: &mut [u8],
    list: &mut [u64],
) -> Report
    ensures value { result ≡ exported_report
        (run_report program.now table.now turns.now output.old list.old) }
    ensures output_after { output.new
        ≡ run_output program.now table.now turns.now output.old list.old }
    ensures list_after { list.new ≡ run_list program.now table.now turns.now output.old list.old }
{
    audala::audala_run(program, table, turns, output, list)
}

// A program image, a table image, a step name, a label and a parameter to the three counts, and the commands to the list.
#[unsafe(no_mangle)]
pub extern "C" fn audala_count(
    program: &[u8],
    table: &[u8],
    name: u32,
    label: u32,
    parameter: u32,
    list: &mut [u64],
) -> Counts
    ensures value { result ≡ exported_counts (count program.now table.now name label parameter list.old) }
    ensures list_after { list.new ≡ count_list program.now table.now name label parameter list.old }
{
    audala::tallies::audala_count(program, table, name, label, parameter, list)
}

// The number of a refusal, else 0, and the blocks that are written; the image of the text's program in the front of the output.
#[unsafe(no_mangle)]
pub extern "C" fn audala_text(text: &[u8], output: &mut [u8]) -> Copied
    ensures value { result ≡ copied (text_number text.now output.old) (text_blocks text.now output.old) }
    ensures output_after { output.new ≡ text_output text.now output.old }
{
    audala::texts::audala_text(text, output)
}

// Where reading a text stops; at its end where the end is the place.
#[unsafe(no_mangle)]
pub extern "C" fn audala_place(text: &[u8]) -> Stopped
    ensures { result.at ≡ place text.now }
{
    audala::places::audala_place(text)
}

// The listing of an image in the front of the output, and the count of its bytes; 13 where the output is shorter than any listing may be.
#[unsafe(no_mangle)]
pub extern "C" fn audala_listing(image: &[u8], output: &mut [u8]) -> Copied
    ensures value { result ≡ exported_listing (listing_of image.now) output.old }
    ensures output_after { output.new ≡ listed (listing_of image.now) output.old }
{
    audala::listings::audala_listing(image, output)
}

// Of the text of a trace the bytes from a place on, as many as the output holds, in the front of the output.
#[unsafe(no_mangle)]
pub extern "C" fn audala_trace(
    program: &[u8],
    table: &[u8],
    turns: &[u8],
    from: u64,
    output: &mut [u8],
) -> Traced
    ensures value { result ≡ exported_page (traced_number program.now table.now turns.now)
        (traced_turns program.now table.now turns.now)
        (trace_text program.now table.now turns.now) from (length output.old) }
    ensures output_after { output.new
        ≡ paged from (trace_text program.now table.now turns.now) output.old }
{
    audala::traces::audala_trace(program, table, turns, from, output)
}

// The stream of an image of at most so many blocks, in the front of the buffer.
#[unsafe(no_mangle)]
pub extern "C" fn audala_read_image(image: &[u8], most: usize, buffer: &mut [u8]) -> Copied
    ensures value { result ≡ exported_read (read most image.now (length buffer.old)) }
    ensures buffer_after { buffer.new
        ≡ read_into (read most image.now (length buffer.old)) (stream image.now) buffer.old }
{
    audala::images::audala_read_image(image, most, buffer)
}

// The image of a stream in at most so many blocks, in the front of the output.
#[unsafe(no_mangle)]
pub extern "C" fn audala_write_image(bytes: &[u8], most: usize, output: &mut [u8]) -> Copied
    ensures value { result ≡ exported_write (write most (length bytes.now) (length output.old)) }
    ensures output_after { output.new
        ≡ written_into (write most (length bytes.now) (length output.old)) bytes.now output.old }
{
    audala::images::audala_write_image(bytes, most, output)
}
