// The chosen holder, searched for in a lent slice of instance records (01, 'Table and turns'; 02, 'Turns that go round': "counted from the label
// after the one that acted last, wrapping past the highest").
#![tactic(auto)]

ghost use Rattle.std.specs.Prelude.{◌≡◌, ◌*◌, ◌≤◌, length};
ghost use Rattle.types.specs.Limits.{max_instances};
ghost use Rattle.layout.specs.Layout.{head_size};
ghost use Rattle.holders.specs.Records.{Recorded, holder_in};

// What the search needs of an instance: whether it holds commands (docs/DECISIONS.md: a search over a lent slice of instance records).
#[derive(Clone, Copy, PartialEq, Eq, Debug)]
pub struct Record {
    pub holds: bool,
}

// Of the first n records, from the label `from` on and past the highest from 0: the label of the r-th that holds commands, from 0. Where there
// are fewer, the label behind the last one looked at.
pub fn holder(rs: &[Record], n: usize, from: usize, r: usize) -> usize
    requires { n ≤ length rs.now }
    ensures { result ≡ holder_in rs.now n from r }
{
    let mut left = r;
    let mut l = from;
    for _passed in 0..n {
        if n <= l {
            l = 0;
        }
        let one = usize::from(rs[l].holds);
        if left < one {
            return l;
        }
        left -= one;
        l += 1;
    }
    l
}

// The same search, for a caller that hands the records over: one call lends them.
pub fn holder_of(rs: [Record; types::MAX_INSTANCES], n: usize, from: usize, r: usize) -> usize
    requires { n ≤ max_instances }
    ensures { result ≡ holder_in rs n from r }
{
    holder(&rs, n, from, r)
}

// The records of n instances; behind them those of nobody.
pub fn records(heads: &[u16], n: usize) -> [Record; types::MAX_INSTANCES]
    requires { (head_size * n ≤ length heads.now) × (n ≤ max_instances) }
    ensures { Recorded heads.now n result }
{
    let mut rs = [Record { holds: false }; types::MAX_INSTANCES];
    for l in 0..n {
        let holds = layout::holds(heads, l);
        rs[l] = Record { holds };
    }
    rs
}
