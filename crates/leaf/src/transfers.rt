// Levels and greys, and transfers one after the other.
use crate::answers::Answers;
use crate::question::Question;
use glass::Transfer;

// No number where the swing is below 1.
fn level(answers: &mut Answers, gray: u8, swing: i64) {
    if 1 <= swing {
        answers.signed(glass::level(gray, swing));
    }
}

fn gray(answers: &mut Answers, state: i64, swing: i64) {
    if 1 <= swing {
        answers.number(u64::from(glass::gray(state, swing)));
    }
}

// The transfer of three numbers.
fn transfer(question: &Question, from: usize) -> Transfer {
    Transfer {
        add: question.after(from, 0).cast_signed(),
        lo: question.after(from, 1).cast_signed(),
        hi: question.after(from, 2).cast_signed(),
    }
}

pub fn put(answers: &mut Answers, transfer: Transfer) {
    answers.signed(transfer.add);
    answers.signed(transfer.lo);
    answers.signed(transfer.hi);
}

pub fn answer(answers: &mut Answers, question: &Question) -> bool {
    if question.asks(b"level", 2) {
        level(answers, question.byte(0), question.signed(1));
    } else if question.asks(b"gray", 2) {
        gray(answers, question.signed(0), question.signed(1));
    } else if question.asks(b"then", 6) {
        put(answers, transfer(question, 0).then(transfer(question, 3)));
    } else if question.asks(b"apply", 4) {
        answers.signed(transfer(question, 0).apply(question.signed(3)));
    } else {
        return false;
    }
    true
}
