// The answer to a question, by its name.
use crate::answers::Answers;
use crate::question::Question;
use crate::{
    commands, configuration, planes, refreshes, registers, tables, temperature, transfers, waves,
    wiring,
};

fn small(answers: &mut Answers, question: &Question) -> bool {
    registers::answer(answers, question)
        || temperature::answer(answers, question)
        || transfers::answer(answers, question)
        || planes::answer(answers, question)
        || commands::answer(answers, question)
        || tables::answer(answers, question)
}

fn large(answers: &mut Answers, question: &Question) -> bool {
    waves::answer(answers, question)
        || configuration::answer(answers, question)
        || wiring::answer(answers, question)
        || refreshes::answer(answers, question)
}

// A line of text. Each of the modules says whether it knows the question.
pub fn answer(answers: &mut Answers, question: &Question) {
    let _known = small(answers, question) || large(answers, question);
    answers.end_line();
}
