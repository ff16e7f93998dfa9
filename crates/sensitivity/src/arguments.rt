// The arguments: VOLTAGE BEFORE AFTER [SWING [PERIOD | sixteen PERIODs]].
use config::Ssd1677Timing;
use glass::Optics;
use std::env::{Env, FillError};
use voltage_shift::DrivingVoltage;

// Bytes of the longest argument, a number of 64 bits. A longer one is read as an empty one, which is none that is asked for.
const LONGEST: usize = 20;

fn is_given(rt: &impl Env, place: usize) -> bool {
    let mut byte = [0u8; 1];
    !matches!(rt.arg(place, &mut byte), Err(FillError::NotPresent))
}

// How many there are, without the program's name.
pub fn given(rt: &impl Env) -> usize {
    for count in 0..usize::MAX {
        if !is_given(rt, count + 1) {
            return count;
        }
    }
    usize::MAX
}

pub fn is_asked(given: usize) -> bool {
    (given == 3) | (given == 4) | (given == 5) | (given == 20)
}

pub fn voltage(rt: &impl Env, place: usize) -> Option<DrivingVoltage> {
    let mut word = [0u8; LONGEST];
    let length = rt.arg(place, &mut word).unwrap_or(0);
    shift_report::words::voltage(&word[..length])
}

pub fn code(rt: &impl Env, place: usize) -> Option<u8> {
    let mut word = [0u8; LONGEST];
    let length = rt.arg(place, &mut word).unwrap_or(0);
    shift_report::words::code(&word[..length])
}

// A decimal below 2^64 without leading zeros, as in a column: blanks in front are taken.
fn number(rt: &impl Env, place: usize) -> Option<u64> {
    let mut word = [0u8; LONGEST];
    let length = rt.arg(place, &mut word).unwrap_or(0);
    column::read::number(&word[..length])
}

// The default where it is not given.
pub fn swing(rt: &impl Env, given: usize) -> Option<u64> {
    if given < 4 {
        let optics = Optics::default();
        return Some(optics.full_swing);
    }
    number(rt, 4)
}

pub fn default_periods() -> [u64; 16] {
    let timing = Ssd1677Timing::default();
    timing.frame_period
}

// One for all codes.
fn same_period(rt: &impl Env) -> Result<[u64; 16], usize> {
    let period = number(rt, 5).ok_or(5usize)?;
    Ok([period; 16])
}

// One for each code.
fn own_periods(rt: &impl Env) -> Result<[u64; 16], usize> {
    let mut frame_period = [0u64; 16];
    // By its counter, from which the argument's place is reckoned.
    for code in 0..16 {
        frame_period[code] = number(rt, 5 + code).ok_or(5 + code)?;
    }
    Ok(frame_period)
}

// The frame period of each frame-rate code, or the first argument that is no number.
pub fn periods(rt: &impl Env, given: usize) -> Result<[u64; 16], usize> {
    if given < 5 {
        return Ok(default_periods());
    }
    if given == 5 {
        return same_period(rt);
    }
    own_periods(rt)
}
