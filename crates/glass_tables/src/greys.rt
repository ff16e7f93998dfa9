// The greys of many states of one swing. The states from 0 to the swing are cut into at most 512 steps of 2^shift. A step's ends are no
// farther apart than a grey is wide, so that it has two greys at most: one table has that of its first state, another where each grey ends.
ghost use Rattle.std.specs.Prelude.{◌≡◌, ◌*◌, ◌^◌, ◌≤◌, ◌<◌, pos, nat_abs, ◌≤ℤ◌};
ghost use Rattle.glass.specs.Greys.{gray_z};
ghost use Rattle.glass_tables.specs.Greys.{bits_of, Steps, Tables, firsts_of, grey_end, ends_of};

fn shift_of(swing: u64) -> u64
    requires { swing < 9223372036854775808 }
    ensures { Steps swing result }
{
    for shift in 0..54 {
        if swing >> shift < 512 {
            return shift;
        }
    }
    54
}

// How long a step is: 2^shift states.
pub fn shift(swing: i64) -> u64
    requires { pos 1 ≤ℤ swing }
    ensures { Steps (nat_abs swing) result }
{
    shift_of(swing as u64)
}

// The grey of a step's first state.
fn first(step: usize, swing: i64, shift: u64) -> u8
    requires { (pos 1 ≤ℤ swing) × (shift ≤ 54) × (step < 512) }
    ensures { result ≡ gray_z (pos (step * 2 ^ shift)) swing }
{
    glass::gray(((step as u64) << shift) as i64, swing)
}

// The grey that each step begins with.
pub fn firsts(swing: i64, shift: u64) -> [u8; 512]
    requires { (pos 1 ≤ℤ swing) × (shift ≤ 54) }
    ensures { result ≡ firsts_of swing shift }
{
    let mut firsts = [0; 512];
    // By its counter, which is the step's number.
    for i in 0..512 {
        firsts[i] = first(i, swing, shift);
    }
    firsts
}

// The least state whose grey is above `gray`: (2 × gray + 1) × swing / 510, rounded up, in 64 bits.
fn end(gray: u64, swing: u64) -> u64
    requires { (gray ≤ 255) × (swing < 9223372036854775808) }
    ensures { result ≡ grey_end swing gray }
{
    let halves = 2 * gray + 1;
    let whole = swing / 510;
    let rest = swing % 510;
    whole * halves + (rest * halves + 509) / 510
}

// Where each grey ends.
pub fn ends(swing: i64) -> [u64; 256]
    requires { pos 1 ≤ℤ swing }
    ensures { result ≡ ends_of (nat_abs swing) }
{
    let mut ends = [0; 256];
    // By its counter, which is the grey.
    for i in 0..256 {
        ends[i] = end(i as u64, swing as u64);
    }
    ends
}

// The 64 bits of a state as a number from 0 on. A state below 0 then lies above every swing, so that one test finds all states that are
// not from 0 to the swing. Both arms are the same bits: nothing is left of them when they are compiled.
fn bits(state: i64) -> u64
    ensures { result ≡ bits_of state }
{
    if state < 0 {
        return (state - i64::MIN) as u64 + 9223372036854775808;
    }
    state as u64
}

// The grey of a state, as `glass::gray`. For the states from 0 to the swing, which a panel has, the first test always goes one way.
pub fn gray_of(firsts: &[u8; 512], ends: &[u64; 256], shift: u64, swing: i64, state: i64) -> u8
    requires { Tables swing shift firsts.now ends.now }
    ensures { result ≡ gray_z state swing }
{
    let found = bits(state);
    if (swing as u64) < found {
        return if state < 0 { 0 } else { 255 };
    }
    let first = firsts[(found >> shift) as usize];
    if ends[first as usize] <= found {
        first + 1
    } else {
        first
    }
}
