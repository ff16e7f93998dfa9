// A question: its name and its numbers, by their types. A number that is not there reads 0, and of one that is too large the low bits
// count. A negative number −n is held as 2^64 − n.

// Numbers that a question holds at most.
pub const NUMBERS: usize = 8192;

#[derive(Clone, Copy)]
pub struct Question<'a> {
    pub name: &'a [u8],
    pub numbers: &'a [u64],
}

// The low byte of a number.
pub fn low(n: u64) -> u8 {
    (n % 256) as u8
}

impl Question<'_> {
    pub fn is_named(&self, name: &[u8]) -> bool {
        self.name == name
    }

    // Whether a question has this name and so many numbers.
    pub fn asks(&self, name: &[u8], count: usize) -> bool {
        self.numbers.len() == count && self.is_named(name)
    }

    pub fn number(&self, i: usize) -> u64 {
        self.numbers.get(i).copied().unwrap_or(0)
    }

    pub fn byte(&self, i: usize) -> u8 {
        low(self.number(i))
    }

    pub fn word(&self, i: usize) -> u16 {
        (self.number(i) % 65536) as u16
    }

    pub fn double_word(&self, i: usize) -> u32 {
        (self.number(i) % 4294967296) as u32
    }

    pub fn truth(&self, i: usize) -> bool {
        self.number(i) != 0
    }

    pub fn signed(&self, i: usize) -> i64 {
        self.number(i).cast_signed()
    }

    // A number that does not fit reads 0.
    pub fn signed_byte(&self, i: usize) -> i8 {
        i8::try_from(self.signed(i)).unwrap_or(0)
    }

    pub fn signed_word(&self, i: usize) -> i16 {
        i16::try_from(self.signed(i)).unwrap_or(0)
    }

    // The number `i` places after the one at `from`.
    pub fn after(&self, from: usize, i: usize) -> u64 {
        self.number(from.saturating_add(i))
    }

    // The number at `i + 1`, where the one at `i` says that it is there.
    pub fn option(&self, i: usize) -> Option<u64> {
        if self.truth(i) {
            Some(self.after(i, 1))
        } else {
            None
        }
    }

    // The low bytes of the numbers from `from` on.
    pub fn bytes(&self, from: usize, bytes: &mut [u8]) {
        for (i, byte) in bytes.iter_mut().enumerate() {
            *byte = low(self.after(from, i));
        }
    }

    pub fn setting(&self, from: usize) -> [u8; 112] {
        let mut setting = [0u8; 112];
        self.bytes(from, &mut setting);
        setting
    }

    // Sixteen frame periods from `from` on.
    pub fn periods(&self, from: usize) -> [u64; 16] {
        let mut periods = [0u64; 16];
        for (i, period) in periods.iter_mut().enumerate() {
            *period = self.after(from, i);
        }
        periods
    }
}
