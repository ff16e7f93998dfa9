// A question read from its text, byte by byte.
ghost use Rattle.std.specs.Prelude.{◌≤◌};

use crate::answer;
use crate::answers::Answers;
use crate::question::{NUMBERS, Question};
use std::io;

// Bytes of a name at most.
const NAME: usize = 32;

// A number as far as it is read.
#[derive(Clone, Copy)]
struct Number {
    value: u64,
    minus: bool,
}

// A line as far as it is read.
#[derive(Drop)]
pub struct Reader {
    name: [u8; NAME],
    // Bytes of its name.
    letters: usize,
    numbers: [u64; NUMBERS],
    // Numbers that a blank ended.
    count: usize,
    // The number being read; none before the blank that ends the name.
    number: Option<Number>,
    ghost named_within: { letters ≤ 32 },
    ghost counted_within: { count ≤ 8192 },
}

fn digit(byte: u8) -> u64 {
    match byte {
        b'0'..=b'9' => u64::from(byte - b'0'),
        _ => 0,
    }
}

impl Number {
    fn new() -> Number {
        Number {
            value: 0,
            minus: false,
        }
    }

    // The number with a byte more.
    fn more(self, byte: u8) -> Number {
        let mut next = self;
        if byte == b'-' {
            next.minus = true;
        } else {
            next.value = self.value.saturating_mul(10).saturating_add(digit(byte));
        }
        next
    }

    fn held(self) -> u64 {
        if self.minus {
            self.value.wrapping_neg()
        } else {
            self.value
        }
    }
}

impl Reader {
    pub fn new() -> Reader {
        Reader {
            name: [0; NAME],
            letters: 0,
            numbers: [0; NUMBERS],
            count: 0,
            number: None,
        }
    }

    pub fn read(
        &mut self,
        rt: &(impl Print + Eprint),
        byte: u8,
        answers: &mut Answers,
    ) -> io::Result<()> {
        match byte {
            b'\n' => {
                self.end_word();
                self.end_line(answers);
                answers.flush_when_long(rt)?;
            }
            b' ' => self.end_word(),
            _ => self.more(byte),
        }
        Ok(())
    }

    // A byte of the name, or of a number.
    fn more(&mut self, byte: u8) {
        match self.number {
            Some(number) => self.number = Some(number.more(byte)),
            None => self.spell(byte),
        }
    }

    fn spell(&mut self, byte: u8) {
        if self.letters < NAME {
            self.name[self.letters] = byte;
            self.letters += 1;
        }
    }

    fn end_word(&mut self) {
        if let Some(number) = self.number {
            self.push(number.held());
        }
        self.number = Some(Number::new());
    }

    fn push(&mut self, n: u64) {
        if self.count < NUMBERS {
            self.numbers[self.count] = n;
            self.count += 1;
        }
    }

    // The answer, and the next line.
    fn end_line(&mut self, answers: &mut Answers) {
        let question = Question {
            name: &self.name[..self.letters],
            numbers: &self.numbers[..self.count],
        };
        answer::answer(answers, &question);
        self.letters = 0;
        self.count = 0;
        self.number = None;
    }
}
