// The records of a table stream, read into memory one behind the other (01, 'Table and turns', and numbers 11 and 12).
ghost use Rattle.std.specs.Prelude.{◌≡◌, List, ◌+◌, ◌*◌, ◌≤◌, ◌<◌, length};
ghost use Rattle.types.specs.Limits.{nat_end};
ghost use Rattle.types.specs.Refusals.{numbered};
ghost use Rattle.types.specs.Types.{Ty, type_of};
ghost use Rattle.table.specs.TableReader.{allowed, read_count};
ghost use Rattle.layout.specs.Layout.{head_size, row_size};
ghost use Rattle.table_read.specs.Told.{count_told, Counted, Within, ValueLaid, ValuesLaid, RecordLaid, RecordsLaid};

use crate::parameters::Parameters;
use types::refusal::Refusal;

// N, where a program has that many structs: with the null instances there are at most 256.
pub(crate) fn count(s: &[u8], structs: usize) -> Result<usize, Refusal>
    requires { structs ≤ 16 }
    ensures value { (pss : List (List Ty)) → length pss ≡ structs → numbered result ≡ count_told (read_count pss s.now 0) }
    ensures counted { Counted s.now structs result }
{
    if s.len() < 2 {
        return Err(Refusal::TableEnd);
    }
    let n = little_endian::pair_at(s, 0);
    if types::MAX_INSTANCES - structs < n {
        return Err(Refusal::TableValue);
    }
    Ok(n)
}

// Whether a number stands for a value of the type with this byte: a Bool is 0 or 1.
fn allowed(t: u8, w: u64) -> bool
    requires { w < nat_end }
    ensures { result ≡ allowed (type_of t) w }
{
    t != types::BOOL || w < 2
}

// A value of the type t, stored in the cell i.
fn value(s: &[u8], t: u8, at: usize, cells: &mut [u64], i: usize) -> Result<usize, Refusal>
    requires { (at ≤ length s.now) × (i < length cells.old) }
    ensures value_laid { ValueLaid s.now t at cells.old i (numbered result) cells.new }
    ensures within { Within s.now at result }
{
    if s.len() - at < 4 {
        return Err(Refusal::TableEnd);
    }
    let w = little_endian::word_at(s, at);
    if !allowed(t, w) {
        return Err(Refusal::TableValue);
    }
    cells[i] = layout::cell(t, w);
    Ok(at + 4)
}

// The values of n parameters whose types stand from a place on, stored one behind the other.
fn values(
    s: &[u8],
    types: &[u8],
    from: usize,
    n: usize,
    at: usize,
    cells: &mut [u64],
    place: usize,
) -> Result<usize, Refusal>
    requires { (at ≤ length s.now) × (from + n ≤ length types.now) × (place + n ≤ length cells.old) }
    ensures values_laid { ValuesLaid s.now types.now from n at cells.old place (numbered result) cells.new }
    ensures within { Within s.now at result }
{
    let mut next = at;
    for x in 0..n {
        next = value(s, types[from + x], next, cells, place + x)?;
    }
    Ok(next)
}

// The record at a place, as the instance l.
fn one_record(
    s: &[u8],
    p: Parameters,
    at: usize,
    heads: &mut [u16],
    cells: &mut [u64],
    l: usize,
) -> Result<usize, Refusal>
    requires head_size_in_bounds { (head_size * l + head_size ≤ length heads.old) × (row_size * l + row_size ≤ length cells.old) }
    ensures record_laid { RecordLaid p.entry.counts.now p.entry.types.now s.now at heads.old cells.old l (numbered result)
        heads.new cells.new }
    ensures within { Within s.now at result }
{
    if s.len() <= at {
        return Err(Refusal::TableEnd);
    }
    let k = little_endian::index(s[at]);
    if p.counts.len() <= k {
        return Err(Refusal::TableValue);
    }
    layout::seat(heads, l, k);
    values(
        s,
        p.types,
        types::MAX_PARAMS * k,
        little_endian::index(p.counts[k]),
        at + 1,
        cells,
        layout::ROW_SIZE * l,
    )
}

// n records from a place on, as the instances behind the null ones.
pub(crate) fn records(
    s: &[u8],
    p: Parameters,
    n: usize,
    at: usize,
    heads: &mut [u16],
    cells: &mut [u64],
) -> Result<usize, Refusal>
    requires at_in_bounds { (at ≤ length s.now) × (head_size * (length p.counts.now + n) ≤ length heads.old)
        × (row_size * (length p.counts.now + n) ≤ length cells.old) }
    ensures records_laid { RecordsLaid p.entry.counts.now p.entry.types.now s.now n at heads.old cells.old
        (length p.entry.counts.now) (numbered result) heads.new cells.new }
    ensures within { Within s.now at result }
{
    let mut next = at;
    for i in 0..n {
        next = one_record(s, p, next, heads, cells, p.counts.len() + i)?;
    }
    Ok(next)
}
