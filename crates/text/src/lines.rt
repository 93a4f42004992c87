// Lines, each ended by a line feed (01, 'Bench rows').
ghost use Rattle.std.specs.Prelude.{◌+◌, ◌*◌, ◌<◌, ◌≤◌, ◌++◌, length};
ghost use Rattle.text.specs.Listing.{Placed, column, row, line};

use crate::{byte, command, decimal, put};

// A number and a space.
pub fn column(out: &mut [u8], k: usize, n: u64) -> usize
    requires { k + 21 ≤ length out.old }
    ensures placed { Placed (column n) out.old k result out.new }
    ensures upper_bound { result ≤ k + 21 }
{
    let i = decimal(out, k, n);
    byte(out, i, b' ')
}

// The line of a command: struct, step name, position, command.
pub fn line(out: &mut [u8], k: usize, of: u8, name: u8, position: u64, w: u64) -> usize
    requires { k + 111 ≤ length out.old }
    ensures placed { Placed (line of name position w) out.old k result out.new }
    ensures upper_bound { result ≤ k + 111 }
{
    let a = column(out, k, u64::from(of));
    let b = column(out, a, u64::from(name));
    let c = column(out, b, position);
    let d = command(out, c, w);
    byte(out, d, b'\n')
}

// A line of a word and numbers, a space before each.
pub fn row(out: &mut [u8], k: usize, word: &[u8], ns: &[u64]) -> usize
    requires { k + length word.now + 21 * length ns.now < length out.old }
    ensures placed { Placed (row word.now ns.now) out.old k result out.new }
    ensures upper_bound { result ≤ k + length word.now + 21 * length ns.now + 1 }
{
    let mut end = put(out, k, word);
    for n in ns {
        let i = byte(out, end, b' ');
        end = decimal(out, i, *n);
    }
    byte(out, end, b'\n')
}
