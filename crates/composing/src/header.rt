// The types of parameters in front of a stream (01, 'Program stream'): per struct their count and their bytes, in front of all the count of structs. They are
// written from the end, row by row.
ghost use Rattle.std.specs.Prelude.{◌≡◌, ◌++◌, ℕ, ◌+◌, ◌≤◌, ◌<◌, length, get_or, drop};
ghost use Rattle.std.proofs.Math.Seq.{slice};
ghost use Rattle.compose.specs.Header.{row_of, header, Rows};
ghost use Rattle.composing.specs.Sizes.{front_most};

// The bytes of a table from a to b and their count, in front of a place.
fn row(out: &mut [u8], types: &[usize], a: usize, b: usize, place: usize) -> usize
    requires a_le_b { (a ≤ b) × (b ≤ a + 8) × (b ≤ length types.now) × (b + 1 ≤ place + a) × (place ≤ length out.old) }
    requires by_index { (i : ℕ) → i < length types.now → get_or types.now i 0 < 256 }
    ensures out_after { drop result out.new ≡ (row_of (slice a b types.now) ++ drop place out.old) }
    ensures b_value { result + b + 1 ≡ place + a }
{
    let mut p = place;
    for i in (a..b).rev() {
        p -= 1;
        out[p] = types[i] as u8;
    }
    p -= 1;
    out[p] = (b - a) as u8;
    p
}

// Every row and their count, in front of a place.
pub fn write_header(out: &mut [u8], types: &[usize], offsets: &[usize], place: usize) -> usize
    requires { (front_most ≤ place) × (place ≤ length out.old) × Rows offsets.now types.now }
    ensures out_after { drop result out.new ≡ (header offsets.now types.now ++ drop place out.old) }
    ensures upper_bound { (result ≤ place) × (place ≤ result + front_most) }
{
    let mut p = place;
    for k in (1..offsets.len()).rev() {
        p = row(out, types, offsets[k - 1], offsets[k], p);
    }
    p -= 1;
    out[p] = (offsets.len() - 1) as u8;
    p
}
