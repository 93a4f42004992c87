// The lines of a program's steps: the directory gives each step's struct, name and place, the list its commands (01, 'Bench rows').
#![tactic(auto)]

ghost use Rattle.std.specs.Prelude.{◌+◌, ◌*◌, ◌≤◌, length};
ghost use Rattle.directory.specs.Rows.{rows_from};
ghost use Rattle.text.specs.Listing.{Placed};
ghost use Rattle.step_lines.specs.RowLines.{line_most, RowFits, row_lines, rows_lines, Listable};

use directory::Row;
use directory::rows::row_at;
use text::lines::line;

// The lines of a row's step, with positions from 0 on.
fn step(list: &[u64], r: Row, out: &mut [u8], k: usize) -> usize
    requires { (RowFits list.now r) × (k + line_most * r.size ≤ length out.old) }
    ensures placed { Placed (row_lines list.now r) out.old k result out.new }
    ensures upper_bound { result ≤ k + line_most * r.size }
{
    let start = usize::from(r.start);
    let commands = &list[start..start + usize::from(r.size)];
    let mut at = k;
    for (i, w) in commands.iter().enumerate() {
        at = line(out, at, r.structure as u8, r.name as u8, i as u64, *w);
    }
    at
}

// The lines of the steps of n rows, whose commands the list holds.
pub fn program(rows: &[u16], n: usize, list: &[u64], out: &mut [u8], k: usize) -> usize
    requires { Listable rows.now n list.now out.old k }
    ensures placed { Placed (rows_lines list.now (rows_from rows.now 0 n)) out.old k result out.new }
    ensures upper_bound { result ≤ length out.old }
{
    let mut at = k;
    for i in 0..n {
        at = step(list, row_at(rows, i), out, at);
    }
    at
}
