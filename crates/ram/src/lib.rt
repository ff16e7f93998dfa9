// The two RAM planes (datasheet §6.5; ram.rs), with the counter of `counter` by the same name.
//
// A data byte holds eight pixels, the most significant bit at the lowest X of the byte. The planes are the caller's, lent for each call.
#![tactic(auto)]

ghost use Rattle.std.specs.Prelude.{◌≡◌, length};
ghost use Rattle.numbers.specs.Lists.{tab};
ghost use Rattle.ram.specs.Plane.{plane_of, index_of, read_at, wrote_at, written_at, bit_at};

pub use config::{RAM_GATES, RAM_SOURCES};
pub use counter::{Counter, Entry, Window, ten_bits};

// Bytes in a row of a plane.
pub const ROW_BYTES: usize = RAM_SOURCES as usize / 8;
// Bytes in a plane.
pub const PLANE_BYTES: usize = ROW_BYTES * RAM_GATES as usize;

// The two RAM planes.
#[derive(Clone, Copy)]
pub enum Plane {
    // Written by 0x24: 1 is white, 0 black.
    BlackWhite,
    // Written by 0x26: on the X4, the previous frame for a differential refresh.
    Red,
}

impl Plane {
    // Its bytes, of the two planes that are lent.
    pub fn plane<'a>(self, black_white: &'a [u8], red: &'a [u8]) -> &'a [u8]
        ensures { result.now ≡ plane_of black_white.now red.now self }
    {
        match self {
            Plane::BlackWhite => black_white,
            Plane::Red => red,
        }
    }
}

pub fn index(at: Counter) -> Option<usize>
    ensures { result ≡ index_of at }
{
    let column = (at.x / 8) as usize;
    let row = at.y as usize;
    if column < ROW_BYTES {
        if row < RAM_GATES as usize {
            return Some(row * ROW_BYTES + column);
        }
    }
    None
}

pub fn read(plane: &[u8], at: Counter) -> Option<u8>
    ensures { result ≡ read_at plane.now at }
{
    let i = index(at)?;
    if i < plane.len() {
        return Some(plane[i]);
    }
    None
}

// Writes `byte` at the counter; `false`, and the plane as it was, where a read finds nothing.
pub fn write(plane: &mut [u8], at: Counter, byte: u8) -> bool
    ensures value { result ≡ wrote_at plane.old at }
    ensures plane_after { plane.new ≡ written_at plane.old at byte }
{
    match index(at) {
        Some(i) => {
            if i < plane.len() {
                plane[i] = byte;
                return true;
            }
            false
        }
        None => false,
    }
}

pub fn bit(plane: &[u8], x: u16, row: u16) -> Option<bool>
    ensures { result ≡ bit_at plane.now x row }
{
    let byte = read(plane, Counter { x: x, y: row })?;
    Some((byte >> (7 - x % 8)) & 1 == 1)
}

// Every byte of the plane, however long, becomes `byte`.
pub fn fill(plane: &mut [u8], byte: u8)
    ensures { plane.new ≡ tab (length plane.old) (λ _. byte) }
{
    plane.fill(byte);
}
