// Columns of decimals, right-justified: gathered, and read (`read`).
#![tactic(auto)]

pub mod read;

ghost use Rattle.std.specs.Prelude.{◌≡◌, ◌^◌, ◌<◌, ◌≤◌, true, [], ◌∷◌, length, take, List, ℕ};
ghost use Rattle.column.specs.Columns.{has_digit, symbol_at, column_of, natural, whole, buffer, gathered, in_front};

use std::marker::Model;

const POWERS_OF_TEN: [u64; 20] = [
    1,
    10,
    100,
    1000,
    10000,
    100000,
    1000000,
    10000000,
    100000000,
    1000000000,
    10000000000,
    100000000000,
    1000000000000,
    10000000000000,
    100000000000000,
    1000000000000000,
    10000000000000000,
    100000000000000000,
    1000000000000000000,
    10000000000000000000,
];

fn power_of_ten(place: usize) -> u64
    requires { place < 20 }
    ensures { result ≡ 10 ^ place }
{
    POWERS_OF_TEN[place]
}

// A number of 64 bits has none past the last power's place.
fn has_digit(n: u64, place: usize) -> bool
    ensures is { result ≡ has_digit n place }
    ensures near { result ≡ true → place < 20 }
{
    if place < POWERS_OF_TEN.len() {
        return (place == 0) | (power_of_ten(place) <= n);
    }
    false
}

// What stands at a place of a column.
fn symbol(negative: bool, n: u64, place: usize) -> u8
    ensures { result ≡ symbol_at negative n place }
{
    if has_digit(n, place) {
        let digit = (n / power_of_ten(place) % 10) as u8;
        return b'0' + digit;
    }
    if negative {
        let right = has_digit(n, place - 1);
        if right {
            return b'-';
        }
    }
    b' '
}

// A column as wide as `out`.
fn fill_column(out: &mut [u8], negative: bool, n: u64)
    ensures { out.new ≡ column_of (length out.old) negative n }
{
    let width = out.len();
    // The counter is the place in the column, from the left.
    for i in 0..width {
        out[i] = symbol(negative, n, width - 1 - i);
    }
}

// Text of up to `ROOM` bytes. What does not fit is left out.
#[derive(Drop)]
pub struct Columns<const ROOM: usize> {
    bytes: [u8; ROOM],
    len: usize,
}

impl<const ROOM: usize> Model for Columns<ROOM> {
    ghost Value = { List ℕ };

    ghost view = { λ c. take c.len c.bytes };

    ghost invariant = { λ c. c.len ≤ ROOM };
}

impl<const ROOM: usize> Columns<ROOM> {
    pub fn new() -> Self
        ensures { result ≡ [] }
    {
        Columns {
            bytes: [0; ROOM],
            len: 0,
        }
    }

    // A byte more.
    pub fn put(&mut self, byte: u8)
        ensures { self.new ≡ gathered ROOM self.old (byte ∷ []) }
    {
        if self.len < ROOM {
            self.bytes[self.len] = byte;
            self.len += 1;
        }
    }

    pub fn put_text(&mut self, text: &[u8])
        ensures { self.new ≡ gathered ROOM self.old text.now }
    {
        if text.len() <= ROOM - self.len {
            let from = self.len;
            let end = from + text.len();
            let bytes = &mut self.bytes[..];
            bytes[from..end].copy_from_slice(text);
            self.len = end;
            return;
        }
        for byte in text {
            self.put(*byte);
        }
    }

    fn put_column(&mut self, width: usize, negative: bool, n: u64)
        ensures { self.new ≡ gathered ROOM self.old (column_of width negative n) }
    {
        if width <= ROOM - self.len {
            let from = self.len;
            let end = from + width;
            let bytes = &mut self.bytes[..];
            fill_column(&mut bytes[from..end], negative, n);
            self.len = end;
            return;
        }
        for i in 0..width {
            self.put(symbol(negative, n, width - 1 - i));
        }
    }

    // A column of a number.
    pub fn put_number(&mut self, width: usize, n: u64)
        ensures { self.new ≡ gathered ROOM self.old (natural width n) }
    {
        self.put_column(width, false, n);
    }

    // The same of a whole number, which may be below 0.
    pub fn put_whole(&mut self, width: usize, z: i64)
        ensures { self.new ≡ gathered ROOM self.old (whole width z) }
    {
        self.put_column(width, z < 0, z.unsigned_abs());
    }

    pub fn text(&self) -> &[u8]
        ensures { result.now ≡ self.now }
    {
        &self.bytes[..self.len]
    }

    // Writes the text to the front of `out` and answers its length. An `out` of fewer than `ROOM` bytes stays as it is, and the answer is 0.
    pub fn write_to(&self, out: &mut [u8]) -> usize
        ensures text { buffer result out.new ≡ in_front ROOM self.now out.old }
        ensures within { result ≤ length out.new }
    {
        if out.len() < ROOM {
            return 0;
        }
        out[..self.len].copy_from_slice(&self.bytes[..self.len]);
        self.len
    }
}
