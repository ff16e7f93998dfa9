// Voltages and the registers' own arithmetic.
use crate::answers::Answers;
use crate::question::Question;
use waveform::Levels;

// Source less VCOM, in millivolts, under the voltages of bytes 106 to 108.
fn source_less_vcom(answers: &mut Answers, question: &Question) {
    let mut setting = [0u8; 112];
    setting[106] = question.byte(2);
    setting[107] = question.byte(3);
    setting[108] = question.byte(4);
    let levels = Levels::from_setting(&setting);
    let source = levels.source(question.byte(0));
    let vcom = levels.vcom_swing(question.byte(1));
    answers.signed(source.saturating_add(vcom.saturating_neg()));
}

fn ten_bits(answers: &mut Answers, question: &Question) {
    let value = question.word(0);
    let index = question.word(1);
    let byte = question.byte(2);
    answers.number(u64::from(ram::ten_bits(value, index, byte)));
}

fn voltages(answers: &mut Answers, question: &Question) -> bool {
    let code = question.byte(0);
    if question.asks(b"source_millivolts", 1) {
        answers.signed_option(voltage::source_millivolts(code));
    } else if question.asks(b"vsl_millivolts", 1) {
        answers.signed_option(voltage::vsl_millivolts(code));
    } else if question.asks(b"vcom_millivolts", 1) {
        answers.signed_option(voltage::vcom_millivolts(code));
    } else if question.asks(b"gate_code_is_listed", 1) {
        answers.truth(voltage::gate_code_is_listed(code));
    } else {
        return false;
    }
    true
}

pub fn answer(answers: &mut Answers, question: &Question) -> bool {
    if question.asks(b"ten_bits", 3) {
        ten_bits(answers, question);
    } else if question.asks(b"source_less_vcom", 5) {
        source_less_vcom(answers, question);
    } else {
        return voltages(answers, question);
    }
    true
}
