// The parameters of a program (01, 'Program stream'): two tables of bytes, lent together.
ghost use Rattle.std.specs.Prelude.{ℕ, ◌*◌, ◌<◌, ◌≤◌, length, get_or};
ghost use Rattle.types.specs.Limits.{max_structs, max_params};

// For each struct how many it has, and eight places with the bytes of their types: of at most 16 structs, with at most 8 parameters each.
#[derive(Clone, Copy)]
pub struct Parameters<'a> {
    pub counts: &'a [u8],
    pub types: &'a [u8],
    ghost few: { length counts.now ≤ max_structs },
    ghost long: { max_params * length counts.now ≤ length types.now },
    // as their type says
    ghost bytes: { (i : ℕ) → get_or types.now i 0 < 256 },
    ghost each: { (k : ℕ) → get_or counts.now k 0 ≤ max_params },
}

impl<'a> Parameters<'a> {
    ghost use Rattle.std.specs.Prelude.{◌≡◌};
    ghost use Rattle.table_read.specs.Params.{Tables};

    pub fn new(counts: &'a [u8], types: &'a [u8]) -> Parameters<'a>
        requires { Tables counts.now types.now }
        ensures { (result.counts.now ≡ counts.now) × (result.types.now ≡ types.now) }
    {
        Parameters { counts, types }
    }
}
