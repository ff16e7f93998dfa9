// The fields of a configuration and of a state, and the lent buffers, as docs/replay-format.md numbers them.
ghost use Rattle.std.specs.Prelude.{◌≡◌, ◌+◌, ◌^◌, ◌<◌};
ghost use Rattle.line.specs.Fields.{bits_of, state_bits_of, longest_of};

// The largest number of each field of the configuration.
const LARGEST: [u64; 54] = [
    65535,
    65535,
    65535,
    1,
    1,
    1,
    1,
    1,
    18446744073709551615,
    1,
    255,
    1,
    18446744073709551615,
    18446744073709551615,
    18446744073709551615,
    18446744073709551615,
    18446744073709551615,
    18446744073709551615,
    18446744073709551615,
    18446744073709551615,
    18446744073709551615,
    18446744073709551615,
    18446744073709551615,
    18446744073709551615,
    18446744073709551615,
    18446744073709551615,
    18446744073709551615,
    18446744073709551615,
    18446744073709551615,
    18446744073709551615,
    18446744073709551615,
    18446744073709551615,
    18446744073709551615,
    18446744073709551615,
    18446744073709551615,
    18446744073709551615,
    18446744073709551615,
    18446744073709551615,
    1,
    65535,
    1,
    65535,
    4294967295,
    255,
    255,
    255,
    255,
    255,
    255,
    255,
    255,
    255,
    255,
    4294967295,
];

pub fn largest(field: usize) -> u64
    requires { field < 54 }
    ensures { result + 1 ≡ 2 ^ bits_of field }
{
    LARGEST[field]
}

// The largest number of a field of the state.
pub fn largest_of_state(field: usize) -> u64
    ensures { result + 1 ≡ 2 ^ state_bits_of field }
{
    if field < 12 {
        return 65535;
    }
    if field < 14 {
        return 255;
    }
    if field < 31 {
        return 18446744073709551615;
    }
    4294967295
}

// The longest that a buffer is lent: planes and log by a byte too long and the counts by one, so that this can be refused too.
pub fn longest(buffer: usize) -> u64
    ensures { result ≡ longest_of buffer }
{
    if buffer < 3 {
        return 652800;
    }
    if buffer < 5 {
        return 81601;
    }
    if buffer < 6 {
        return 680;
    }
    if buffer < 7 {
        return 16385;
    }
    if buffer < 8 {
        return 10000;
    }
    257
}
