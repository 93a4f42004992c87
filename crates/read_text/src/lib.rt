// Program text read into an image (02 §1): 15, 16, 17 and 13 in that order, or the image of the program that the text means. Each pass goes over the places
// of the text in memory of its own, so that no function follows the nesting of the text.
#![tactic(auto)]

ghost use Rattle.std.specs.Prelude.{◌≡◌, ◌<◌, ◌≤◌, length};
ghost use Rattle.std.proofs.Math.Option.{some};
ghost use Rattle.tokens.specs.Scanning.{lex};
ghost use Rattle.source.specs.Source.{max_text};
ghost use Rattle.source.specs.TextReader.{of_tokens, text_number, text_blocks, text_output};
ghost use Rattle.lexer.specs.Gaps.{Gap};
ghost use Rattle.derive.specs.Held.{held};
ghost use Rattle.resolve.specs.Tables.{offsets};
ghost use Rattle.compose.specs.Header.{Rows};
ghost use Rattle.compose.specs.Composed.{type_bytes, composed};
ghost use Rattle.uses.specs.Declaring.{Tabled};
ghost use Rattle.composing.specs.Placing.{placed_in};
ghost use Rattle.read_text.specs.Ending.{ended, answer, answer_of, left, ending};
ghost use Rattle.types.specs.Refusals.{numbered};
ghost use Rattle.read_text.specs.Roled.{Roled, stream_of};
ghost use Rattle.text_shape.specs.RoleNames.{new_par_role};
ghost use Rattle.composing.specs.Sizes.{output_size};
ghost use Rattle.meaning.specs.Holds.{max_stream};

use composing::sizes;
use types::refusal::Refusal;
use uses::layout;

// Bytes of a text at the most; of the largest image.
pub const MAX_TEXT: usize = 65536;

const OUTPUT: usize = types::PROGRAM_BLOCKS * blocks::BLOCK_SIZE;

// What reading answers: the number of the refusal, else 0; the blocks that are written.
#[derive(Clone, Copy)]
pub struct Answer {
    pub number: u32,
    pub blocks: u32,
}

// The answer of a text's image, by the blocks that are written, or of a refusal.
fn answered(read: Result<u32, Refusal>) -> Answer
    ensures { result ≡ answer_of (numbered read) }
{
    match read {
        Ok(blocks) => Answer { number: 0, blocks },
        Err(refusal) => Answer {
            number: u32::from(u8::from(refusal)),
            blocks: 0,
        },
    }
}

// The stream of a text by its tables of declarations, at the end of the lent memory.
fn composed(
    text: &[u8],
    roles: &[u8],
    numbers: &[u8],
    tables: &[usize],
    stack: &mut [u8],
    stream: &mut [u8],
) -> Option<usize>
    requires roles_in_bounds { (length roles.now ≤ length text.now) × (length roles.now < length stack.old) × (length stream.old ≡ output_size) }
    requires roled { (Roled text.now roles.now) × (Tabled text.now roles.now tables.now) }
    requires rows { Rows (offsets new_par_role roles.now) (type_bytes text.now roles.now) }
    ensures { placed_in stream.new result
        ≡ composed text.now roles.now (held numbers.now (length numbers.now)) }
{
    let first = layout::OFFSETS;
    let last = first + tables[layout::STRUCT_COUNT];
    let end = last + 1;
    let types = layout::TYPES;
    let types_end = types + tables[last];
    composing::stream(
        text,
        roles,
        numbers,
        &tables[first..end],
        &tables[types..types_end],
        stack,
        stream,
    )
}

// A stream in blocks from the start of the output, where that has room for the largest image (13).
fn imaged(stream: &[u8], out: &mut [u8]) -> Result<u32, Refusal>
    requires { (1 ≤ length stream.now) × (length stream.now ≤ max_stream) }
    ensures value { answer_of (numbered result) ≡ answer (ended (some stream.now) out.old) }
    ensures out_after { out.new ≡ left (ended (some stream.now) out.old) out.old }
{
    if out.len() < OUTPUT {
        return Err(Refusal::NoRoom);
    }
    let w = blocks::write_image(stream, types::PROGRAM_BLOCKS, out);
    let Ok(k) = w else {
        return Err(Refusal::NoProgram);
    };
    Ok(k as u32)
}

// Behind a derivation, by the roles that it gives the tokens: 17, 13, or the image.
fn meant(text: &[u8], roles: &[u8], stack: &mut [u8], out: &mut [u8]) -> Result<u32, Refusal>
    requires roles_len { (length roles.now ≡ length text.now) × (length text.now ≤ max_text) × (length roles.now < length stack.old) }
    requires roled { Roled text.now roles.now }
    ensures value { answer_of (numbered result) ≡ answer (ended (stream_of text.now roles.now) out.old) }
    ensures out_after { out.new ≡ left (ended (stream_of text.now roles.now) out.old) out.old }
{
    let mut numbers = [0u8; MAX_TEXT];
    let mut tables = [0usize; layout::TABLE_SIZE];
    let n = uses::numbers(text, roles, &mut tables, stack, &mut numbers)?;
    let mut stream = [0u8; sizes::OUTPUT];
    let placed = composed(text, roles, &numbers[..n], &tables, stack, &mut stream);
    let p = placed.ok_or(Refusal::NoProgram)?;
    imaged(&stream[p..], out)
}

// A text, in fresh memory for the kinds of its tokens and then their roles: 15, 16, 17 and 13 in order, or the image.
fn passes(text: &[u8], kinds: &mut [u8], stack: &mut [u8], out: &mut [u8]) -> Result<u32, Refusal>
    requires kinds_len { (length kinds.old ≡ length text.now) × (length text.now ≤ max_text) × (length text.now < length stack.old) }
    requires gap { Gap kinds.old 0 (length kinds.old) }
    ensures value { answer_of (numbered result) ≡ answer (ending (of_tokens (lex 0 text.now) out.old)) }
    ensures out_after { out.new ≡ left (ending (of_tokens (lex 0 text.now) out.old)) out.old }
{
    if !lexer::mark(text, kinds) {
        return Err(Refusal::NoToken);
    }
    if !derive::derived(kinds, stack) {
        return Err(Refusal::NoDerivation);
    }
    meant(text, kinds, stack, out)
}

// A text: the number of its refusal, or its program's image from the start of the output.
pub fn read(text: &[u8], out: &mut [u8]) -> Answer
    ensures number_value { (result.number ≡ text_number text.now out.old) × (result.blocks ≡ text_blocks text.now out.old) }
    ensures out_after { out.new ≡ text_output text.now out.old }
{
    let n = text.len();
    if MAX_TEXT < n {
        return answered(Err(Refusal::NoToken));
    }
    let mut kinds = [0u8; MAX_TEXT];
    let mut stack = [0u8; MAX_TEXT + 1];
    answered(passes(text, &mut kinds[..n], &mut stack, out))
}
