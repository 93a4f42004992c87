// The trace of a run for C and Rust, a page at a time (docs/FORMAT.md, 'Traces').
ghost use Rattle.std.specs.Prelude.{◌≡◌, length};
ghost use Rattle.trace.specs.TraceText.{trace_text};
ghost use Rattle.trace.specs.TracePage.{traced_number, traced_turns, paged};
ghost use Rattle.audala.specs.Exported.{exported_page};
ghost use Rattle.audala.specs.Handed.{handed_page};

// What a page answers: the number and the turns of the run, how many bytes the whole text of its trace has, and how many of them were written.
#[repr(C)]
#[derive(Clone, Copy)]
pub struct Traced {
    pub number: u32,
    pub turns: u32,
    pub length: u64,
    pub count: usize,
}

impl From<trace_images::Traced> for Traced {
    ghost from_gives = { λ r traced. traced ≡ handed_page r };

    fn from(r: trace_images::Traced) -> Traced {
        Traced {
            number: u32::from(r.number),
            turns: r.turns,
            length: r.length as u64,
            count: r.count,
        }
    }
}

// Of the text of a trace the bytes from a place on, as many as the output holds, in the front of the output.
pub fn audala_trace(
    program: &[u8],
    table: &[u8],
    turns: &[u8],
    from: u64,
    output: &mut [u8],
) -> Traced
    ensures value { result ≡ exported_page (traced_number program.now table.now turns.now)
        (traced_turns program.now table.now turns.now)
        (trace_text program.now table.now turns.now) from (length output.old) }
    ensures output_after { output.new
        ≡ paged from (trace_text program.now table.now turns.now) output.old }
{
    Traced::from(trace_images::trace(program, table, turns, from as usize, output))
}
