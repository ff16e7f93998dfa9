// Temperatures and their registers.
use crate::answers::Answers;
use crate::question::Question;
use config::Temperature;

fn sixteenths(answers: &mut Answers, temperature: Temperature) {
    answers.signed(i64::from(temperature.sixteenths()));
}

fn from_sixteenths(answers: &mut Answers, sixteenths: i16) {
    let temperature = Temperature::from_sixteenths(sixteenths);
    answers.signed_option(temperature.map(|temperature| i64::from(temperature.sixteenths())));
}

// No number where the format does not hold the temperature.
fn register(answers: &mut Answers, sixteenths: i16) {
    if let Some(temperature) = Temperature::from_sixteenths(sixteenths) {
        answers.number(u64::from(temperature.register()));
    }
}

pub fn answer(answers: &mut Answers, question: &Question) -> bool {
    if question.asks(b"from_register", 1) {
        sixteenths(answers, Temperature::from_register(question.word(0)));
    } else if question.asks(b"from_celsius", 1) {
        sixteenths(answers, Temperature::from_celsius(question.signed_byte(0)));
    } else if question.asks(b"from_sixteenths", 1) {
        from_sixteenths(answers, question.signed_word(0));
    } else if question.asks(b"register", 1) {
        register(answers, question.signed_word(0));
    } else {
        return false;
    }
    true
}
