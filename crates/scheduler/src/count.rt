// How many instances hold commands (01, 'Table and turns').
ghost use Rattle.std.specs.Prelude.{◌≡◌, ◌*◌, ◌≤◌, length};
ghost use Rattle.layout.specs.Layout.{head_size};
ghost use Rattle.memory.specs.Choose.{holding};

use layout::holds;

// How many of n instances hold commands.
pub fn holding(heads: &[u16], n: usize) -> usize
    requires { head_size * n ≤ length heads.now }
    ensures { result ≡ holding heads.now 0 n }
{
    let mut count: usize = 0;
    for l in 0..n {
        if holds(heads, l) {
            count += 1;
        }
    }
    count
}
