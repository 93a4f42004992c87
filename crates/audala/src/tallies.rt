// How many orders of a step end in which way, for C and Rust (02 §14).
ghost use Rattle.std.specs.Prelude.{◌≡◌};
ghost use Rattle.counts.specs.CountEntry.{count, count_list};
ghost use Rattle.audala.specs.Counted.{exported_counts};
ghost use Rattle.audala.specs.Handed.{handed_counts};

// What a count answers; after a number from the input all but the number are 0.
#[repr(C)]
#[derive(Clone, Copy)]
pub struct Counts {
    pub number: u32,
    pub truths: u32,
    pub falsehoods: u32,
    pub stops: u32,
}

impl From<count_images::Counts> for Counts {
    ghost from_gives = { λ c counts. counts ≡ handed_counts c };

    fn from(c: count_images::Counts) -> Counts {
        Counts {
            number: u32::from(c.number),
            truths: c.truths,
            falsehoods: c.falsehoods,
            stops: c.stops,
        }
    }
}

// A program image, a table image, a step name, a label and a parameter to the three counts, and the commands to the list.
pub fn audala_count(
    program: &[u8],
    table: &[u8],
    name: u32,
    label: u32,
    parameter: u32,
    list: &mut [u64],
) -> Counts
    ensures value { result ≡ exported_counts (count program.now table.now name label parameter list.old) }
    ensures list_after { list.new ≡ count_list program.now table.now name label parameter list.old }
{
    Counts::from(count_images::count(program, table, name, label, parameter, list))
}
