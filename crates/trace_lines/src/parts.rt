// The parts of a line that memory holds: the values on a stack, each behind its type, and the stability entries.
ghost use Rattle.std.specs.Prelude.{◌≡◌, ◌+◌, ◌*◌, ◌<◌, ◌≤◌, length, get_or};
ghost use Rattle.types.specs.Limits.{max_depth, fix_levels};
ghost use Rattle.layout.specs.Layout.{head, height_of};
ghost use Rattle.text.specs.Listing.{Placed};
ghost use Rattle.trace_lines.specs.Parts.{CellFits, StackFits, cell_most, tag, worth, cell_text, cells_text, entries_text};

const STRUCT: u64 = types::STRUCT as u64;

// The type byte of a cell; of a label, that of its instance's struct.
fn tag(heads: &[u16], c: u64) -> u64
    requires { CellFits heads.now c }
    ensures { result ≡ tag heads.now c }
{
    let t = layout::type_byte(c) as u64;
    if t < STRUCT {
        return t;
    }
    let q = layout::operand(c) as usize;
    let k = heads[layout::HEAD_SIZE * q + layout::STRUCT] as usize;
    STRUCT + k as u64
}

// The value of a cell.
pub(crate) fn worth(out: &mut [u8], k: usize, c: u64) -> usize
    requires { k + 21 ≤ length out.old }
    ensures placed { Placed (worth c) out.old k result out.new }
    ensures upper_bound { result ≤ k + 21 }
{
    text::value(out, k, layout::type_byte(c) as u64, layout::operand(c))
}

// A value behind its type.
fn cell(out: &mut [u8], k: usize, heads: &[u16], c: u64) -> usize
    requires cell_fits { CellFits heads.now c }
    requires cell_most_in_bounds { k + cell_most ≤ length out.old }
    ensures placed { Placed (cell_text heads.now c) out.old k result out.new }
    ensures upper_bound { result ≤ k + cell_most }
{
    let a = text::put(out, k, b" ");
    let b = text::decimal(out, a, tag(heads, c));
    let d = text::put(out, b, b":");
    worth(out, d, c)
}

// The stack of instance l, the top last.
pub(crate) fn stack(out: &mut [u8], k: usize, heads: &[u16], cells: &[u64], l: usize) -> usize
    requires stack_fits { StackFits heads.now cells.now l }
    requires max_depth_in_bounds { k + cell_most * max_depth ≤ length out.old }
    ensures placed { Placed (cells_text heads.now cells.now l (get_or heads.now (head l height_of) 0))
        out.old k result out.new }
    ensures upper_bound { result ≤ k + cell_most * max_depth }
{
    let high = heads[layout::HEAD_SIZE * l + layout::HEIGHT] as usize;
    let bottom = layout::ROW_SIZE * l + types::VARIABLES;
    let mut at = k;
    for h in 0..high {
        at = cell(out, at, heads, cells[bottom + h]);
    }
    at
}

// The n lowest bits of s, the lowest first.
pub(crate) fn entries(out: &mut [u8], k: usize, n: usize, s: usize) -> usize
    requires { (n ≤ fix_levels) × (k + 10 ≤ length out.old) }
    ensures placed { Placed (entries_text n s) out.old k result out.new }
    ensures upper_bound { result ≤ k + 10 }
{
    let mut at = text::put(out, k, b" s");
    let mut left = s;
    for i in 0..n {
        at = text::byte(out, at, b'0' + (left % 2) as u8);
        left = left / 2;
    }
    at
}
