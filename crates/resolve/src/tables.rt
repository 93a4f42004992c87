// Tables of places: one place after the other into a table, and whether the names at its places are all different.
ghost use Rattle.std.specs.Prelude.{◌≡◌, ◌+◌, ◌<◌, set};
ghost use Rattle.meaning.specs.Finding.{distinct};
ghost use Rattle.resolve.specs.Named.{names_at};
ghost use Rattle.resolve.specs.Tables.{with_place, with_one};

use crate::names;

// A place at an index of a table, if the table has it.
pub fn put(table: &mut [usize], n: usize, i: usize)
    ensures { table.new ≡ set table.old n i }
{
    if n < table.len() {
        table[n] = i;
    }
}

// One more place of a table's n, if it is one; and their count. Without a branch (`counted`) each byte of a text takes 14 instructions more.
pub fn add(table: &mut [usize], n: usize, i: usize, is: bool) -> usize
    requires { n + 1 < 18446744073709551616 }
    ensures value { result ≡ with_one is n }
    ensures table_after { table.new ≡ with_place is table.old n i }
{
    if !is {
        return n;
    }
    put(table, n, i);
    n + 1
}

// One more, if it is one.
pub fn counted(n: usize, is: bool) -> usize
    requires { n + 1 < 18446744073709551616 }
    ensures { result ≡ with_one is n }
{
    n + usize::from(is)
}

// Whether the names at a table's places are all different.
pub fn distinct(text: &[u8], table: &[usize]) -> bool
    ensures { result ≡ distinct (names_at text.now table.now) }
{
    for (i, at) in table.iter().enumerate() {
        if names::lookup(text, &table[i + 1..], *at).is_some() {
            return false;
        }
    }
    true
}
