// Program text for C and Rust: a text to the image of its program (02 §1).
ghost use Rattle.std.specs.Prelude.{◌≡◌};
ghost use Rattle.source.specs.TextReader.{text_number, text_blocks, text_output};
ghost use Rattle.audala.specs.Images.{copied};
ghost use Rattle.audala.specs.Handed.{handed_image};

use crate::images::Copied;

impl From<read_text::Answer> for Copied {
    ghost from_gives = { λ a image. image ≡ handed_image a };

    fn from(a: read_text::Answer) -> Copied {
        Copied {
            number: a.number,
            count: a.blocks as usize,
        }
    }
}

// The number of a refusal, else 0, and the blocks that are written; the image of the text's program in the front of the output.
pub fn audala_text(text: &[u8], output: &mut [u8]) -> Copied
    ensures value { result ≡ copied (text_number text.now output.old) (text_blocks text.now output.old) }
    ensures output_after { output.new ≡ text_output text.now output.old }
{
    Copied::from(read_text::read(text, output))
}
