// The number in a column of decimals (docs/replay-format.md).
ghost use Rattle.std.specs.Prelude.{◌≡◌};
ghost use Rattle.column.specs.Reading.{read_of, digit_of, step_of};

// `n` with a digit after it.
fn digit(n: u64, byte: u8) -> Option<u64>
    ensures { result ≡ digit_of n byte }
{
    if byte < b'0' {
        return None;
    }
    if b'9' < byte {
        return None;
    }
    let units = u64::from(byte - b'0');
    if (u64::MAX - units) / 10 < n {
        return None;
    }
    Some(10 * n + units)
}

// What stands left of the units, a byte further. A number of 0 is blanks alone.
fn step(n: u64, byte: u8) -> Option<u64>
    ensures { result ≡ step_of (Some n) byte }
{
    if (n == 0) & (byte == b' ') {
        return Some(0);
    }
    if (n == 0) & (byte == b'0') {
        return None;
    }
    digit(n, byte)
}

pub fn number(column: &[u8]) -> Option<u64>
    ensures { result ≡ read_of column.now }
{
    let (units, rest) = column.split_last()?;
    let mut front = 0;
    for byte in rest {
        front = step(front, *byte)?;
    }
    digit(front, *units)
}
