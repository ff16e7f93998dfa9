// The reference waveforms, and the names of the commands that are not supported.
use crate::answers::Answers;
use crate::question::Question;

fn reference_byte(answers: &mut Answers, place: u16) {
    let table = reference::gdeq0426t82_otp();
    let byte = table.get(place as usize).copied();
    answers.option(byte.map(|byte| u64::from(byte)));
}

fn unsupported_name(answers: &mut Answers, command: u8) {
    let name = unsupported_names::unsupported_name(command);
    answers.number(name.length as u64);
    answers.number(hash::of_bytes(&name.bytes));
}

pub fn answer(answers: &mut Answers, question: &Question) -> bool {
    if question.asks(b"gdeq0426t82_otp", 1) {
        reference_byte(answers, question.word(0));
    } else if question.asks(b"unsupported_name", 1) {
        unsupported_name(answers, question.byte(0));
    } else {
        return false;
    }
    true
}
