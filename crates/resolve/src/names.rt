// Names where they stand in a text: two of them compared, one looked up among others.
ghost use Rattle.std.specs.Prelude.{◌≡◌, get_or};
ghost use Rattle.tokens.specs.Tokens.{same};
ghost use Rattle.resolve.specs.Named.{name_at, name_letter, found};

use lexer::bytes;

// The byte at a place if it is one of a name, 0 if not.
fn letter(text: &[u8], i: usize) -> u8
    ensures { result ≡ name_letter (get_or text.now i 0) }
{
    let b = bytes::byte(text, i);
    if bytes::is_name_byte(b) { b } else { 0 }
}

// Whether the names at two places are the same: as many letters are looked at as they share, and one. Two places go on together, so the loop counts both.
pub fn same_name(text: &[u8], a: usize, b: usize) -> bool
    ensures { result ≡ same (name_at text.now a) (name_at text.now b) }
{
    let mut p = a;
    let mut q = b;
    let mut c = letter(text, p);
    while c != 0 {
        if bytes::byte(text, q) != c {
            return false;
        }
        p += 1;
        q += 1;
        c = letter(text, p);
    }
    letter(text, q) == 0
}

// The first of the names at a table's places that is the name at a place, if one is.
pub fn lookup(text: &[u8], table: &[usize], at: usize) -> Option<usize>
    ensures { result ≡ found text.now table.now (name_at text.now at) }
{
    table.iter().position(|place| same_name(text, *place, at))
}
