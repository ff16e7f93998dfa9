// The text of the answers: a line's numbers, with a blank between two of them.
use std::io;
use text::Text;

#[derive(Drop)]
pub struct Answers {
    text: Text,
    // The line has a number already.
    begun: bool,
}

impl Answers {
    pub fn new() -> Answers {
        Answers {
            text: Text::new(),
            begun: false,
        }
    }

    pub fn number(&mut self, n: u64) {
        self.blank();
        self.text.number(n);
    }

    pub fn signed(&mut self, z: i64) {
        self.blank();
        self.text.signed(z);
    }

    pub fn truth(&mut self, is: bool) {
        self.blank();
        self.text.truth(is);
    }

    // 1 and the number that there is, or two zeros.
    pub fn option(&mut self, n: Option<u64>) {
        match n {
            Some(n) => {
                self.truth(true);
                self.number(n);
            }
            None => self.none(),
        }
    }

    pub fn signed_option(&mut self, z: Option<i64>) {
        match z {
            Some(z) => {
                self.truth(true);
                self.signed(z);
            }
            None => self.none(),
        }
    }

    pub fn none(&mut self) {
        self.number(0);
        self.number(0);
    }

    // Ends the line. One without a number answers a question that is not known, or that has no such answer.
    pub fn end_line(&mut self) {
        if !self.begun {
            self.text.word(b"bad question");
        }
        self.text.put(b'\n');
        self.begun = false;
    }

    pub fn flush(&mut self, rt: &(impl Print + Eprint)) -> io::Result<()> {
        self.text.flush(rt)
    }

    // The same once there is enough.
    pub fn flush_when_long(&mut self, rt: &(impl Print + Eprint)) -> io::Result<()> {
        self.text.flush_when_long(rt)
    }

    fn blank(&mut self) {
        if self.begun {
            self.text.put(b' ');
        }
        self.begun = true;
    }
}
