// Whole numbers of fixed width that stop at their ends, as the reference's saturating_add, saturating_mul, saturating_neg, clamp, min and max do.
#![tactic(auto)]

ghost use Rattle.std.specs.Prelude.{◌≡◌, ◌%◌, pos, ◌+ℤ◌, ◌*ℤ◌, neg_ℤ};
ghost use Rattle.numbers.specs.Saturation.{clamp_z, sat_z};

const LARGEST_I64: u64 = 9223372036854775807;

// The low four bits of a byte.
pub fn low_nibble(byte: u8) -> u8
    ensures { result ≡ byte % 16 }
{
    byte & 0x0F
}

// This function and those below stand where the library has its own: the definitions of the glass speak of `clamp_z`, and each caller would
// need the bridge that stands here once.
pub fn clamp_i64(x: i64, lo: i64, hi: i64) -> i64
    ensures { result ≡ clamp_z x lo hi }
{
    if x < lo {
        return lo;
    }
    if hi < x { hi } else { x }
}

// `i64::try_from(n).unwrap_or(i64::MAX)`.
pub fn to_i64(n: u64) -> i64
    ensures { result ≡ sat_z (pos n) }
{
    if LARGEST_I64 < n { i64::MAX } else { n as i64 }
}

// −n, stopping at the least number.
pub fn negative_i64(n: u64) -> i64
    ensures { result ≡ sat_z (neg_ℤ (pos n)) }
{
    if LARGEST_I64 < n {
        i64::MIN
    } else {
        -(n as i64)
    }
}

pub fn saturating_add_i64(a: i64, b: i64) -> i64
    ensures { result ≡ sat_z (a +ℤ b) }
{
    if b < 0 {
        if a < i64::MIN - b {
            return i64::MIN;
        }
        return a + b;
    }
    if i64::MAX - b < a { i64::MAX } else { a + b }
}

pub fn saturating_neg_i64(a: i64) -> i64
    ensures { result ≡ sat_z (neg_ℤ a) }
{
    if a == i64::MIN { i64::MAX } else { -a }
}

pub fn saturating_mul_i64(a: i64, b: i64) -> i64
    ensures { result ≡ sat_z (a *ℤ b) }
{
    let first = a.unsigned_abs();
    let second = b.unsigned_abs();
    let product = first.saturating_mul(second);
    if a < 0 {
        if b < 0 {
            to_i64(product)
        } else {
            negative_i64(product)
        }
    } else if b < 0 {
        negative_i64(product)
    } else {
        to_i64(product)
    }
}
