// The parameter lists of the structs, read into two tables (01, 'Program stream').
#![tactic(auto)]

ghost use Rattle.std.specs.Prelude.{◌≡◌, [], ◌∷◌, ◌+◌, ◌*◌, ◌≤◌, length};
ghost use Rattle.std.proofs.lemmas.List.Edits.{sets};
ghost use Rattle.types.specs.Refusals.{numbered};
ghost use Rattle.judge.specs.ProgramFacts.{row};
ghost use Rattle.program.specs.Reader.{many, read_type, read_params};
ghost use Rattle.read_params.specs.ParamsTold.{read_list, place_told, params_told, RowKept, ListKept, ListsKept};
ghost use Rattle.read_params.specs.ParamsTold.{ParamsKept, PlaceSpan, ParamsSpan};

use read_exprs::read;
use types::refusal::Refusal;

// Zeros in so much room.
fn clear(types: &mut [u8], room: usize, place: usize)
    requires { place + room ≤ length types.old }
    ensures { types.new ≡ sets types.old place (row room []) }
{
    types[place..place + room].fill(0);
}

// n types of a program with that many structs: their bytes, and zeros for the rest of the room. The next place is answered.
fn row(
    s: &[u8],
    types: &mut [u8],
    structs: usize,
    n: usize,
    room: usize,
    place: usize,
    at: usize,
) -> Result<usize, Refusal>
    requires { (at ≤ length s.now) × (n ≤ room) × (place + room ≤ length types.old) }
    ensures value { numbered result ≡ place_told (many [] ◌∷◌ (read_type s.now structs) n at) }
    ensures place_span { PlaceSpan s.now at result }
    ensures row_kept { RowKept room place types.old types.new (many [] ◌∷◌ (read_type s.now structs) n at) }
{
    let mut next = at;
    for i in 0..n {
        let (b, behind) = read::type_byte(s, structs, next)?;
        types[place + i] = b;
        next = behind;
    }
    clear(types, room - n, place + n);
    Ok(next)
}

// The parameters of struct k.
fn list(
    s: &[u8],
    counts: &mut [u8],
    types: &mut [u8],
    structs: usize,
    k: usize,
    at: usize,
) -> Result<usize, Refusal>
    requires { (k + 1 ≤ length counts.old) × (8 * k + 8 ≤ length types.old) }
    ensures value { numbered result ≡ place_told (read_list s.now structs at) }
    ensures place_span { PlaceSpan s.now at result }
    ensures list_kept { ListKept k counts.old counts.new types.old types.new (read_list s.now structs at) }
{
    let (n, m) = read::ranged(s, 0, types::MAX_PARAMS + 1, at)?;
    counts[k] = n;
    row(
        s,
        types,
        structs,
        usize::from(n),
        types::MAX_PARAMS,
        types::MAX_PARAMS * k,
        m,
    )
}

// The parameters of n structs.
fn lists(
    s: &[u8],
    counts: &mut [u8],
    types: &mut [u8],
    n: usize,
    at: usize,
) -> Result<usize, Refusal>
    requires { (at ≤ length s.now) × (n ≤ length counts.old) × (8 * n ≤ length types.old) × (n ≤ 16) }
    ensures value { numbered result ≡ place_told (many [] ◌∷◌ (read_list s.now n) n at) }
    ensures place_span { PlaceSpan s.now at result }
    ensures lists_kept { ListsKept 0 counts.old counts.new types.old types.new (many [] ◌∷◌ (read_list s.now n) n at) }
{
    let mut next = at;
    for k in 0..n {
        next = list(s, counts, types, n, k, next)?;
    }
    Ok(next)
}

// The parameter lists of a program: of each struct how many, and 8 places with their types. The next place is answered, and how many
// structs. After a refusal the tables are free, of the lengths that they had.
pub fn params(s: &[u8], counts: &mut [u8], types: &mut [u8]) -> Result<(usize, u8), Refusal>
    requires { (length counts.old ≡ 16) × (length types.old ≡ 128) }
    ensures value { numbered result ≡ params_told (read_params s.now 0) }
    ensures params_span { ParamsSpan s.now result }
    ensures params_kept { ParamsKept counts.old counts.new types.old types.new (read_params s.now 0) }
{
    let (n, m) = read::ranged(s, 1, types::MAX_STRUCTS + 1, 0)?;
    let next = lists(s, counts, types, usize::from(n), m)?;
    Ok((next, n))
}
