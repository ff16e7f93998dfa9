// What the command table and the border register say.
use crate::answers::Answers;
use crate::question::Question;
use device::{Kind, Params};
use waveform::Drive;

fn three(answers: &mut Answers, tag: u64, least: u16, most: u16) {
    answers.number(tag);
    answers.number(u64::from(least));
    answers.number(u64::from(most));
}

fn params(answers: &mut Answers, params: Params) {
    match params {
        Params::Exactly(count) => three(answers, 1, count, count),
        Params::Between(least, most) => three(answers, 2, least, most),
        Params::Stream => three(answers, 3, 0, 0),
    }
}

fn kind(answers: &mut Answers, command: u8) {
    match command::kind(command) {
        None => three(answers, 0, 0, 0),
        Some(Kind::Write(taken)) => params(answers, taken),
        Some(Kind::Read) => three(answers, 4, 0, 0),
        Some(Kind::Unsupported) => three(answers, 5, 0, 0),
        Some(Kind::Reserved) => three(answers, 6, 0, 0),
    }
}

fn border_drive(answers: &mut Answers, border: u8) {
    match panel::border_drive(border) {
        None => answers.none(),
        Some(Drive::Lut(lut)) => {
            answers.number(1);
            answers.number(lut as u64);
        }
        Some(Drive::Fixed(code)) => {
            answers.number(2);
            answers.number(u64::from(code));
        }
    }
}

pub fn answer(answers: &mut Answers, question: &Question) -> bool {
    let byte = question.byte(0);
    if question.asks(b"kind", 1) {
        kind(answers, byte);
    } else if question.asks(b"is_read_command", 1) {
        answers.truth(command::is_read_command(byte));
    } else if question.asks(b"border_drive", 1) {
        border_drive(answers, byte);
    } else {
        return false;
    }
    true
}
