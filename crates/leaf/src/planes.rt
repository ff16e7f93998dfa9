// The counter and the planes.
use crate::answers::Answers;
use crate::question::Question;
use ram::{Counter, Entry, Window};

fn counter(question: &Question) -> Counter {
    Counter {
        x: question.word(0),
        y: question.word(1),
    }
}

fn window(question: &Question) -> Window {
    Window {
        x_start: question.word(2),
        x_end: question.word(3),
        y_start: question.word(4),
        y_end: question.word(5),
    }
}

fn advance(answers: &mut Answers, question: &Question) {
    let entry = Entry(question.byte(6));
    let moved = counter(question).advanced(window(question), entry);
    answers.number(u64::from(moved.x));
    answers.number(u64::from(moved.y));
}

fn next(x: u32) -> u32 {
    x.wrapping_mul(1664525).wrapping_add(1013904223)
}

// The bytes of a seed's pattern.
pub fn fill(plane: &mut [u8; ram::PLANE_BYTES], seed: u32) {
    let mut x = seed;
    for byte in plane.iter_mut() {
        x = next(x);
        *byte = (x / 16777216) as u8;
    }
}

fn pixel(plane: &[u8; ram::PLANE_BYTES], x: u16, row: u16) -> Option<bool> {
    ram::bit(plane, x, row)
}

fn bit(answers: &mut Answers, question: &Question) {
    let mut plane = [0u8; ram::PLANE_BYTES];
    fill(&mut plane, question.double_word(0));
    let bit = pixel(&plane, question.word(1), question.word(2));
    answers.option(bit.map(|bit| u64::from(bit)));
}

fn auto_write(answers: &mut Answers, parameter: u8) {
    let mut plane = [0x5Au8; ram::PLANE_BYTES];
    auto_write::auto_write(&mut plane, parameter);
    answers.number(hash::of_bytes(&plane));
}

pub fn answer(answers: &mut Answers, question: &Question) -> bool {
    if question.asks(b"advance", 7) {
        advance(answers, question);
    } else if question.asks(b"within", 6) {
        answers.truth(counter(question).within(window(question)));
    } else if question.asks(b"index", 2) {
        answers.option(ram::index(counter(question)).map(|place| place as u64));
    } else if question.asks(b"bit", 3) {
        bit(answers, question);
    } else if question.asks(b"auto_write", 1) {
        auto_write(answers, question.byte(0));
    } else {
        return false;
    }
    true
}
