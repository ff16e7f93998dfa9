// The choice of a waveform, and the conditions of a start.
ghost use Rattle.std.specs.Prelude.{◌<◌};

use crate::answers::Answers;
use crate::question::{NUMBERS, Question};
use config::{ConfigError, DisplayMode, GateScan, PanelGeometry, Ssd1677Config, Ssd1677Timing};
use glass::{Optics, Provenance};

// Where the bytes of a table begin in a question, and how many there are at most.
const TABLE_AT: usize = 55;

const TABLE: usize = NUMBERS - TABLE_AT;

// Entries of a table in a question at most, and the bytes of each.
const ENTRIES: usize = 65;

const ENTRY_BYTES: usize = 118;

// An entry of a question, its mode, lower and upper bound, in the table: a register takes two bytes, high byte first.
fn entry(table: &mut [u8; TABLE], i: usize, question: &Question)
    requires { i < 65 }
{
    let at = ENTRY_BYTES * i;
    let lower = question.word(4 + 3 * i);
    let upper = question.word(5 + 3 * i);
    table[at] = question.byte(3 + 3 * i);
    table[at + 2] = (lower / 256) as u8;
    table[at + 3] = (lower % 256) as u8;
    table[at + 4] = (upper / 256) as u8;
    table[at + 5] = (upper % 256) as u8;
}

fn mode(question: &Question) -> DisplayMode {
    if question.truth(0) {
        DisplayMode::Two
    } else {
        DisplayMode::One
    }
}

// The place that is told beside a part that holds an entry.
fn found(table: &[u8], mode: DisplayMode, register: u16) -> Option<u64> {
    let mut place: u8 = 255;
    let part = otp::find_waveform(table, mode, register, &mut place);
    if part.is_empty() {
        None
    } else {
        Some(u64::from(place))
    }
}

fn find_waveform(answers: &mut Answers, question: &Question) {
    let count = question.byte(2) as usize;
    if count <= ENTRIES {
        let mut table = [0u8; TABLE];
        for i in 0..count {
            entry(&mut table, i, question);
        }
        let entries = &table[..ENTRY_BYTES * count];
        answers.option(found(entries, mode(question), question.word(1)));
    }
}

fn provenance(question: &Question, i: usize) -> Provenance {
    if question.truth(i) {
        Provenance::Measured
    } else {
        Provenance::Approximation
    }
}

// The geometry of the first seven numbers.
pub fn geometry(question: &Question) -> PanelGeometry {
    PanelGeometry {
        width: question.word(0),
        height: question.word(1),
        first_source: question.word(2),
        columns_reversed: question.truth(3),
        native_scan: GateScan {
            sm: question.truth(4),
            gd: question.truth(5),
        },
        rows_reversed: question.truth(6),
    }
}

fn optics(question: &Question) -> Optics {
    Optics {
        provenance: provenance(question, 7),
        full_swing: question.number(8),
        positive_drives_black: question.truth(9),
        initial_gray: question.byte(10),
    }
}

fn timing(question: &Question) -> Ssd1677Timing {
    Ssd1677Timing {
        provenance: provenance(question, 11),
        clock_on: question.number(12),
        analog_on: question.number(13),
        analog_off: question.number(14),
        temperature_internal: question.number(15),
        temperature_external: question.number(16),
        lut_load: question.number(17),
        soft_reset: question.number(18),
        hardware_reset: question.number(19),
        auto_write: question.number(20),
        vci_detection: question.number(21),
        frame_period: question.periods(22),
    }
}

fn external_sensor(question: &Question) -> Option<u16> {
    if question.truth(40) {
        Some(question.word(41))
    } else {
        None
    }
}

fn user_id(question: &Question) -> [u8; 10] {
    let mut user_id = [0u8; 10];
    question.bytes(43, &mut user_id);
    user_id
}

fn config(question: &Question) -> Ssd1677Config {
    Ssd1677Config {
        panel: geometry(question),
        optics: optics(question),
        timing: timing(question),
        busy_active_high: question.truth(38),
        ambient: question.word(39),
        external_sensor: external_sensor(question),
        vci_millivolts: question.double_word(42),
        user_id: user_id(question),
        frequency: question.double_word(53),
    }
}

// A table that does not fit a question is a bad one.
fn validated(table: &[u8; TABLE], length: usize, config: Ssd1677Config) -> Result<(), ConfigError> {
    if TABLE < length {
        return Err(ConfigError::BadTable);
    }
    validate::validate(config, &table[..length])
}

// The number of an error, and the value that it holds or 0.
fn error(answers: &mut Answers, error: ConfigError) {
    let (number, value) = match error {
        ConfigError::EmptyPanel => (1, 0),
        ConfigError::PanelOutsideRam => (2, 0),
        ConfigError::OddRowsWithGd => (3, 0),
        ConfigError::ZeroSwing => (4, 0),
        ConfigError::ZeroFramePeriod(code) => (5, code),
        ConfigError::OtpVoltage(entry) => (6, entry),
        ConfigError::BadTable => (12, 0),
        ConfigError::ZeroFrequency => (14, 0),
    };
    answers.number(number);
    answers.number(value as u64);
}

fn validate(answers: &mut Answers, question: &Question) {
    let mut table = [0u8; TABLE];
    question.bytes(TABLE_AT, &mut table);
    match validated(&table, question.word(54) as usize, config(question)) {
        Ok(()) => answers.none(),
        Err(refused) => error(answers, refused),
    }
}

pub fn answer(answers: &mut Answers, question: &Question) -> bool {
    if question.is_named(b"find_waveform") {
        find_waveform(answers, question);
    } else if question.is_named(b"validate") {
        validate(answers, question);
    } else {
        return false;
    }
    true
}
