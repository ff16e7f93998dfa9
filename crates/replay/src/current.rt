// The line of the command that data bytes belong to.
use crate::answers::Answers;
use device::{Active, Current, Kind, Params};

fn counts(answers: &mut Answers, word: &[u8], least: u16, most: u16) {
    answers.word(word);
    answers.field(u64::from(least));
    answers.field(u64::from(most));
}

fn kind(answers: &mut Answers, kind: Kind) {
    match kind {
        Kind::Write(Params::Exactly(count)) => counts(answers, b" exactly", count, count),
        Kind::Write(Params::Between(least, most)) => counts(answers, b" between", least, most),
        Kind::Write(Params::Stream) => counts(answers, b" stream", 0, 0),
        Kind::Read => counts(answers, b" read", 0, 0),
        Kind::Unsupported => counts(answers, b" unsupported", 0, 0),
        Kind::Reserved => counts(answers, b" reserved", 0, 0),
    }
}

fn active(answers: &mut Answers, active: Active) {
    answers.word(b"current active");
    answers.field(u64::from(active.command));
    kind(answers, active.kind);
    answers.field(u64::from(active.received));
    answers.field(u64::from(active.read));
    answers.truth_field(active.extra_reported);
    answers.truth_field(active.range_reported);
    answers.truth_field(active.nothing_reported);
    answers.end_line();
}

pub fn put(answers: &mut Answers, current: Current) {
    match current {
        Current::Idle => answers.word(b"current idle\n"),
        Current::Ignoring => answers.word(b"current ignoring\n"),
        Current::Active(command) => active(answers, command),
    }
}
