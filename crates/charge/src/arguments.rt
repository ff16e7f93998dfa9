// The sixteen frame periods among the arguments.
use std::env::{Env, FillError};
use std::io;

// No number of 64 bits has more digits.
const DIGITS: usize = 20;

// Blanks in front are taken, up to 20 bytes in all. Argument 0 is the program's own name.
fn period(rt: &impl Env, argument: usize) -> Option<u64> {
    let mut text = [0u8; DIGITS];
    let Ok(length) = rt.arg(argument, &mut text) else {
        return None;
    };
    column::read::number(&text[..length])
}

fn take_all(rt: &(impl Env + Print + Eprint), frame_period: &mut [u64; 16]) -> io::Result<bool> {
    for code in 0..16 {
        let Some(ns) = period(rt, code + 1) else {
            crate::say::bad_period(rt, code)?;
            return Ok(false);
        };
        frame_period[code] = ns;
    }
    Ok(true)
}

fn is_given(rt: &impl Env, argument: usize) -> bool {
    let mut byte = [0u8; 1];
    !matches!(rt.arg(argument, &mut byte), Err(FillError::NotPresent))
}

// Leaves the periods as they are where there is no argument; answers whether to go on.
pub fn take(rt: &(impl Env + Print + Eprint), frame_period: &mut [u64; 16]) -> io::Result<bool> {
    if !is_given(rt, 1) {
        return Ok(true);
    }
    if !is_given(rt, 16) || is_given(rt, 17) {
        crate::say::failure(
            rt,
            "charge: give the frame periods of all sixteen codes in nanoseconds, or none\n",
        )?;
        return Ok(false);
    }
    take_all(rt, frame_period)
}
