// A step begins on the instances whose struct has it (000's rules InitG and InitL; 01, 'Table and turns').
ghost use Rattle.std.specs.Prelude.{◌≡◌, ◌<◌, ◌≤◌, length};
ghost use Rattle.types.specs.Limits.{max_structs};
ghost use Rattle.layout.specs.Layout.{head, end_of, begun};
ghost use Rattle.memory.specs.Move.{means, begin_one, begin_all};
ghost use Rattle.scheduler.specs.Ready.{spans_size, Row, Rows};

// Whether the code c of a started step means struct k: any, or the one it names.
fn means(c: usize, k: usize) -> bool
    requires { k < max_structs }
    ensures { result ≡ means c k }
{
    let named = c / types::STEP_NAMES;
    named == 0 || named == k + 1
}

// Instance l begins the step of the code c, where its struct has it.
pub fn begin_one(spans: &[u16], heads: &mut [u16], c: usize, l: usize)
    requires spans_size_in_bounds { spans_size ≤ length spans.now }
    requires row { Row heads.old l }
    ensures { heads.new ≡ begin_one spans.now c heads.old l }
{
    let k = layout::head(heads, l, layout::STRUCT);
    if !means(c, k) {
        return;
    }
    let at = 2 * (types::STEP_NAMES * k + c % types::STEP_NAMES);
    let a = spans[at];
    let e = spans[at + 1];
    if a <= e {
        layout::begin(heads, l, a, e);
    }
}

// All n instances, from the lowest label up.
pub fn begin_all(spans: &[u16], heads: &mut [u16], c: usize, n: usize)
    requires spans_size_in_bounds { spans_size ≤ length spans.now }
    requires rows { Rows heads.old n }
    ensures { heads.new ≡ begin_all spans.now c heads.old 0 n }
{
    for l in 0..n {
        begin_one(spans, heads, c, l);
    }
}
