// The text of a program's answers, gathered in a buffer and written when there is enough of it. What does not fit is left out, and
// standard error says that it may be.
#![tactic(auto)]

ghost use Rattle.std.specs.Prelude.{◌≡◌, ◌<◌, ◌≤◌, [], ◌∷◌, length, take, List, ℕ};
ghost use Rattle.text.specs.Text.{put_of, written, decimal_of, signed_of, digit_of, hex_of, truth_of};

use std::marker::Model;

// Bytes that are gathered at most.
pub const ROOM: usize = 65536;

// From so many bytes on the text is written by `flush_when_long`.
pub const LONG: usize = 57344;

// The bytes that are gathered.
#[derive(Drop)]
pub struct Text {
    bytes: [u8; ROOM],
    len: usize,
}

impl Model for Text {
    ghost Value = { List ℕ };

    ghost view = { λ t. take t.len t.bytes };

    ghost invariant = { λ t. t.len ≤ 65536 };
}

fn digit(d: u8) -> u8
    requires { d < 16 }
    ensures { result ≡ digit_of d }
{
    if d < 10 { 48 + d } else { 87 + d }
}

impl Text {
    pub fn new() -> Text
        ensures { result ≡ [] }
    {
        Text {
            bytes: [0; ROOM],
            len: 0,
        }
    }

    pub fn len(&self) -> usize
        ensures { result ≡ length self.now }
    {
        self.len
    }

    // A byte more.
    pub fn put(&mut self, byte: u8)
        ensures { self.new ≡ put_of self.old byte }
    {
        if self.len < ROOM {
            self.bytes[self.len] = byte;
            self.len += 1;
        }
    }

    pub fn word(&mut self, word: &[u8])
        ensures { self.new ≡ written self.old word.now }
    {
        let fits = word.len().min(ROOM - self.len);
        let end = self.len + fits;
        self.bytes[self.len..end].copy_from_slice(&word[..fits]);
        self.len = end;
    }

    pub fn number(&mut self, n: u64)
        ensures { self.new ≡ written self.old (decimal_of n) }
    {
        let mut digits = [0u8; 20];
        let count = io::decimal(n, &mut digits);
        self.word(&digits[..count]);
    }

    pub fn signed(&mut self, z: i64)
        ensures { self.new ≡ written self.old (signed_of z) }
    {
        if z < 0 {
            self.put(b'-');
        }
        self.number(z.unsigned_abs());
    }

    pub fn truth(&mut self, is: bool)
        ensures { self.new ≡ put_of self.old (truth_of is) }
    {
        if is {
            self.put(b'1');
        } else {
            self.put(b'0');
        }
    }

    fn hex_byte(&mut self, byte: u8)
        ensures { self.new ≡ written self.old (hex_of (byte ∷ [])) }
    {
        self.word(&[digit(byte / 16), digit(byte % 16)]);
    }

    // Two digits a byte.
    pub fn hex(&mut self, bytes: &[u8])
        ensures { self.new ≡ written self.old (hex_of bytes.now) }
    {
        for byte in bytes {
            self.hex_byte(*byte);
        }
    }

    // Only a text that has used up all its room can lack something.
    fn say_if_full(&self, rt: &impl Eprint) -> std::io::Result<()> {
        if self.len == ROOM {
            eprintln!(rt; "no room left for the text: it may be cut")?;
        }
        Ok(())
    }

    // Writes what is gathered to standard output, and begins anew. Where no room was left, standard error says so.
    pub fn flush(&mut self, rt: &(impl Print + Eprint)) -> std::io::Result<()>
        ensures { self.new ≡ [] }
    {
        let said = self.say_if_full(rt);
        let written = rt.write_all(&self.bytes[..self.len]);
        self.len = 0;
        said?;
        written
    }

    // The same once there is enough.
    pub fn flush_when_long(&mut self, rt: &(impl Print + Eprint)) -> std::io::Result<()>
        ensures short { length self.old < 57344 → self.new ≡ self.old }
        ensures long { 57344 ≤ length self.old → self.new ≡ [] }
    {
        if self.len < LONG {
            return Ok(());
        }
        self.flush(rt)
    }
}
