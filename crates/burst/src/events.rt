// Events as they lie in a file: their kinds, times and values, a list each (docs/replay-format.md).
ghost use Rattle.std.specs.Prelude.{◌≤◌, length};

// The first `count` of three lists.
#[derive(Clone, Copy)]
pub struct Events<'a> {
    pub kinds: &'a [u8],
    pub times: &'a [u64],
    pub values: &'a [u8],
    pub count: usize,
    ghost with_kinds: { count ≤ length kinds.now },
    ghost with_times: { count ≤ length times.now },
    ghost with_values: { count ≤ length values.now },
}
