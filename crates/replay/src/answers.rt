// The text of the answers: words, and fields with a blank in front.
use std::io;
use text::Text;

#[derive(Drop)]
pub struct Answers {
    text: Text,
}

impl Answers {
    pub fn new() -> Answers {
        Answers { text: Text::new() }
    }

    pub fn word(&mut self, word: &[u8]) {
        self.text.word(word);
    }

    pub fn field(&mut self, n: u64) {
        self.text.put(b' ');
        self.text.number(n);
    }

    pub fn signed_field(&mut self, z: i64) {
        self.text.put(b' ');
        self.text.signed(z);
    }

    pub fn truth_field(&mut self, is: bool) {
        self.text.put(b' ');
        self.text.truth(is);
    }

    pub fn hex_field(&mut self, bytes: &[u8]) {
        self.text.put(b' ');
        self.text.hex(bytes);
    }

    pub fn option_field(&mut self, n: Option<u64>) {
        match n {
            Some(n) => self.field(n),
            None => self.text.word(b" -"),
        }
    }

    pub fn end_line(&mut self) {
        self.text.put(b'\n');
    }

    // A word and a number.
    pub fn line(&mut self, word: &[u8], n: u64) {
        self.text.word(word);
        self.field(n);
        self.end_line();
    }

    pub fn flush(&mut self, rt: &(impl Print + Eprint)) -> io::Result<()> {
        self.text.flush(rt)
    }

    // The same once there is enough.
    pub fn flush_when_long(&mut self, rt: &(impl Print + Eprint)) -> io::Result<()> {
        self.text.flush_when_long(rt)
    }
}
