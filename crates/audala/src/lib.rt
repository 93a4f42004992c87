// The checker, the run and the reader of program text as a library (01, 'Numbers from the input', 'Numbers from the state'; 02 §1). The crate audala_c
// exports it for C and Rust; include/audala.h declares that.
#![tactic(auto)]

pub mod images;
pub mod listings;
pub mod places;
pub mod tallies;
pub mod texts;
pub mod traces;

ghost use Rattle.std.specs.Prelude.{◌≡◌};
ghost use Rattle.verdict.specs.Verdict.{check_verdict, check_list};
ghost use Rattle.run.specs.Entry.{run_report, run_output, run_list};
ghost use Rattle.step_part.specs.StepPart.{step_place};
ghost use Rattle.audala.specs.Exported.{exported, exported_part, exported_report};
ghost use Rattle.audala.specs.Handed.{handed_verdict, handed_report};

use checker::Verdict;

// What a check answers; after a refusal all but the number are 0.
#[repr(C)]
#[derive(Clone, Copy)]
pub struct Answer {
    pub number: u32,
    pub structs: u32,
    pub steps: u32,
    pub commands: u32,
    pub depth: u32,
}

impl From<Verdict> for Answer {
    ghost from_gives = { λ v answer. answer ≡ handed_verdict v };

    fn from(v: Verdict) -> Answer {
        Answer {
            number: u32::from(v.number),
            structs: u32::from(v.structs),
            steps: u32::from(v.steps),
            commands: u32::from(v.commands),
            depth: u32::from(v.depth),
        }
    }
}

// A program image to a verdict, and its commands to the list.
pub fn audala_check(image: &[u8], list: &mut [u64]) -> Answer
    ensures value { result ≡ exported (check_verdict image.now list.old) }
    ensures list_after { list.new ≡ check_list image.now list.old }
{
    Answer::from(checker::check(image, list))
}

// The number of a refusal, else 0; where a part of the list begins, and how many places it has.
#[repr(C)]
#[derive(Clone, Copy)]
pub struct Part {
    pub number: u32,
    pub start: u32,
    pub length: u32,
}

// The part of the list for a step, whose places fit 32 bits as no `From` could know; it begins at 0 and has 0 places where the image or the list is refused or the step is not there.
pub fn audala_step(image: &[u8], list: &[u64], structure: u8, name: u8) -> Part
    ensures { result ≡ exported_part (step_place image.now list.now structure name) }
{
    let p = step_part::step_place(image, list, structure, name);
    Part {
        number: u32::from(p.number),
        start: p.start as u32,
        length: p.len as u32,
    }
}

// What a run answers; after a number from the input all but the number are 0.
#[repr(C)]
#[derive(Clone, Copy)]
pub struct Report {
    pub number: u32,
    pub turns: u32,
    pub blocks: u32,
    pub depth: u32,
    pub holding: u32,
}

impl From<run_images::Report> for Report {
    ghost from_gives = { λ r report. report ≡ handed_report r };

    fn from(r: run_images::Report) -> Report {
        Report {
            number: u32::from(r.number),
            turns: r.turns,
            blocks: u32::from(r.blocks),
            depth: u32::from(r.depth),
            holding: u32::from(r.holding),
        }
    }
}

// A program image, a table image and turn bytes to a report, the last table to the output and the commands to the list.
pub fn audala_run(
    program: &[u8],
    table: &[u8],
    turns: &[u8],
    output: &mut [u8],
    list: &mut [u64],
) -> Report
    ensures value { result ≡ exported_report
        (run_report program.now table.now turns.now output.old list.old) }
    ensures output_after { output.new
        ≡ run_output program.now table.now turns.now output.old list.old }
    ensures list_after { list.new ≡ run_list program.now table.now turns.now output.old list.old }
{
    Report::from(run_images::run(program, table, turns, output, list))
}
