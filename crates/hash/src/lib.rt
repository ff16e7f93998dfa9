// The hash of docs/replay-format.md, over lists of bytes, of words, of counts and of states.
#![tactic(auto)]

ghost use Rattle.std.specs.Prelude.{◌≡◌, ◌<◌, ◌/◌, ◌%◌, [], ◌∷◌, ℕ};
ghost use Rattle.hash.specs.Hash.{step_of, hash_from, hash_of, word_bytes, pattern_of, four_of, count_bytes, state_bytes};

use std::marker::Model;

// The bits of a state in two's complement.
fn pattern(state: i64) -> u64
    ensures { result ≡ pattern_of state }
{
    state.cast_unsigned()
}

// The hash of the bytes that were added.
#[derive(Drop)]
struct Hash {
    value: u64,
}

impl Model for Hash {
    ghost Value = { ℕ };

    ghost view = { λ h. h.value };

    ghost invariant = { λ h. h.value < 4294967291 };
}

impl Hash {
    fn new() -> Hash
        ensures { result ≡ 0 }
    {
        Hash { value: 0 }
    }

    fn value(&self) -> u64
        ensures { result ≡ self.now }
    {
        self.value
    }

    fn add(&mut self, byte: u8)
        ensures { self.new ≡ step_of self.old byte }
    {
        self.value = (self.value * 16777619 + u64::from(byte) + 1) % 4294967291;
    }

    // Two bytes, the low byte first.
    fn add_word(&mut self, word: u16)
        ensures { self.new ≡ step_of (step_of self.old (word % 256)) (word / 256) }
    {
        let low = (word % 256) as u8;
        let high = (word / 256) as u8;
        self.add(low);
        self.add(high);
    }

    // Four bytes, the low byte first.
    fn add_four(&mut self, n: u64)
        ensures { self.new ≡ hash_from self.old (four_of n) }
    {
        self.add((n % 256) as u8);
        self.add((n / 256 % 256) as u8);
        self.add((n / 65536 % 256) as u8);
        self.add((n / 16777216 % 256) as u8);
    }

    // Eight bytes, the low byte first.
    fn add_state(&mut self, state: i64)
        ensures { self.new ≡ hash_from self.old (state_bytes (state ∷ [])) }
    {
        let n = pattern(state);
        self.add_four(n);
        self.add_four(n / 4294967296);
    }
}

pub fn of_bytes(bytes: &[u8]) -> u64
    ensures { result ≡ hash_of bytes.now }
{
    let mut hash = Hash::new();
    for byte in bytes {
        hash.add(*byte);
    }
    hash.value()
}

pub fn of_words(words: &[u16]) -> u64
    ensures { result ≡ hash_of (word_bytes words.now) }
{
    let mut hash = Hash::new();
    for word in words {
        hash.add_word(*word);
    }
    hash.value()
}

pub fn of_counts(counts: &[u32]) -> u64
    ensures { result ≡ hash_of (count_bytes counts.now) }
{
    let mut hash = Hash::new();
    for count in counts {
        hash.add_four(u64::from(*count));
    }
    hash.value()
}

pub fn of_states(states: &[i64]) -> u64
    ensures { result ≡ hash_of (state_bytes states.now) }
{
    let mut hash = Hash::new();
    for state in states {
        hash.add_state(*state);
    }
    hash.value()
}
