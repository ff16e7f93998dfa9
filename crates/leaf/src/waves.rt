// What a setting decodes to, and what its display does to a state.
ghost use Rattle.std.specs.Prelude.{◌≡◌, ℕ, ◌<◌, true, ◌==◌, slice_index};
ghost use Rattle.config.specs.Tests.{zero_period};
ghost use Rattle.waveform.specs.Phases.{Takes};

use crate::answers::Answers;
use crate::question::Question;
use crate::transfers;
use waveform::{Drive, Group, Levels, Waveform};

fn bytes(answers: &mut Answers, bytes: &[u8]) {
    for byte in bytes {
        answers.number(u64::from(*byte));
    }
}

fn group(answers: &mut Answers, group: Group) {
    bytes(answers, &group.frames);
    answers.number(u64::from(group.repeats));
    answers.number(group.frame_ns);
    bytes(answers, &group.codes);
}

fn levels(answers: &mut Answers, levels: Levels) {
    answers.signed(levels.vsh1);
    answers.signed(levels.vsh2);
    answers.signed(levels.vsl);
}

// The waveform of sixteen periods and a setting, which begin a question.
fn waveform(question: &Question) -> Waveform {
    setting::from_setting(&question.setting(16), &question.periods(0))
}

fn from_setting(answers: &mut Answers, question: &Question) {
    let waveform = waveform(question);
    for one in waveform.groups {
        group(answers, one);
    }
    levels(answers, waveform.levels);
}

fn frame_rate_code(answers: &mut Answers, question: &Question) {
    let group = question.byte(0) as usize;
    let mut setting = [0u8; 112];
    setting[100] = question.byte(1);
    setting[101] = question.byte(2);
    setting[102] = question.byte(3);
    setting[103] = question.byte(4);
    setting[104] = question.byte(5);
    if group < 10 {
        answers.number(setting::frame_rate_code(&setting, group) as u64);
    }
}

// Whether every frame lasts: no period is 0.
pub fn lasting(periods: [u64; 16]) -> bool
    ensures value { result ≡ (zero_period periods == 16) }
    ensures code_nonzero { result ≡ true → (code : ℕ) → code < 16 → 0 < slice_index periods code }
{
    for i in 0..16 {
        if periods[i] == 0 {
            return false;
        }
    }
    true
}

// What a drive does under the question's waveform, walked or combined; no number where a period is 0, or, combined, the swing is below 1.
fn driven(answers: &mut Answers, drive: Drive, combined: bool, question: &Question)
    requires { Takes drive }
{
    let swing = question.signed(2);
    let black = question.truth(3);
    let until = question.option(4);
    let periods = question.periods(6);
    let setting = question.setting(22);
    if lasting(periods) {
        if !combined {
            let waveform = setting::from_setting(&setting, &periods);
            let walked = walk::transfer(waveform, drive, swing, black, until);
            transfers::put(answers, walked);
        } else if 1 <= swing {
            let transfer = combine::transfer(&setting, &periods, drive, swing, black, until);
            transfers::put(answers, transfer);
        }
    }
}

fn transfer(answers: &mut Answers, combined: bool, question: &Question) {
    let code = question.byte(1);
    if question.truth(0) {
        driven(answers, Drive::Fixed(code), combined, question);
    } else if code < 5 {
        driven(answers, Drive::Lut(code as usize), combined, question);
    }
}

pub fn answer(answers: &mut Answers, question: &Question) -> bool {
    if question.asks(b"from_setting", 128) {
        from_setting(answers, question);
    } else if question.asks(b"duration_ns", 128) {
        answers.number(duration::duration_ns(waveform(question)));
    } else if question.asks(b"frame_rate_code", 6) {
        frame_rate_code(answers, question);
    } else if question.asks(b"transfer", 134) {
        transfer(answers, false, question);
    } else if question.asks(b"combined", 134) {
        transfer(answers, true, question);
    } else {
        return false;
    }
    true
}
