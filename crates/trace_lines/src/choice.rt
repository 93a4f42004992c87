// The instance that a turn byte picks (01, 'Table and turns'; 02, 'Turns that go round'), by the run's own search over instance records.
ghost use Rattle.std.specs.Prelude.{◌≡◌, ◌*◌, ◌<◌, ◌≤◌, length};
ghost use Rattle.types.specs.Limits.{max_instances};
ghost use Rattle.layout.specs.Layout.{head_size};
ghost use Rattle.memory.specs.Choose.{holding, picked};

use holders::{holder_of, records};

// Of n instances, counted from the label `from`, where it is known how many hold commands.
pub(crate) fn picked_of(heads: &[u16], n: usize, from: usize, count: usize, turn: u8) -> usize
    requires { (head_size * n ≤ length heads.now) × (n ≤ max_instances) × (count ≡ holding heads.now 0 n) × (0 < count) }
    ensures { result ≡ picked heads.now from n turn }
{
    let rs = records(heads, n);
    holder_of(rs, n, from, turn as usize % count)
}
