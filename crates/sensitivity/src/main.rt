// How far a change of one voltage may shift the picture (SCOPE, Sensitivity; #112). The voltage and its two codes are arguments, the
// setting is standard input. A refusal is its number on standard output; any other failure is said in words on standard error.
#![tactic(auto)]

mod arguments;
mod say;

use full_read::{is_at_end, read_full};
use glass::Optics;
use std::io;
use std::io::{Input, Read};
use voltage_shift::DrivingVoltage;

// One byte more than a setting has, so that longer input is seen to be longer.
const INPUT_BYTES: usize = voltage_shift::SETTING_BYTES + 1;

// Says why if not.
fn is_whole(rt: &impl Eprint, input: &mut impl Read) -> io::Result<bool> {
    match is_at_end(input) {
        Ok(true) => Ok(true),
        Ok(false) => {
            say::not_whole(rt)?;
            Ok(false)
        }
        Err(error) => {
            say::failed(rt, "standard input", error)?;
            Ok(false)
        }
    }
}

fn report(
    rt: &(impl Input + Print + Eprint),
    optics: Optics,
    frame_period: [u64; 16],
    driving: DrivingVoltage,
    before: u8,
    after: u8,
) -> io::Result<()> {
    let mut setting = [0u8; INPUT_BYTES];
    let mut input = rt.reader();
    let read = match read_full(&mut input, &mut setting) {
        Ok(read) => read,
        Err(error) => return say::failed(rt, "standard input", error),
    };
    if read < INPUT_BYTES {
        if !is_whole(rt, &mut input)? {
            return Ok(());
        }
    }
    let mut text = [0u8; shift_report::ROOM];
    let length = shift_report::report(
        optics,
        frame_period,
        &setting[..read],
        driving,
        before,
        after,
        &mut text,
    );
    match rt.write_all(&text[..length]) {
        Ok(()) => Ok(()),
        Err(error) => say::failed(rt, "standard output", error),
    }
}

fn main(rt: HostRuntime) -> io::Result<()> {
    let given = arguments::given(&rt);
    if !arguments::is_asked(given) {
        return say::usage(&rt);
    }
    let Some(driving) = arguments::voltage(&rt, 1) else {
        return say::voltage(&rt, 1);
    };
    let Some(before) = arguments::code(&rt, 2) else {
        return say::code(&rt, 2);
    };
    let Some(after) = arguments::code(&rt, 3) else {
        return say::code(&rt, 3);
    };
    let Some(swing) = arguments::swing(&rt, given) else {
        return say::decimal(&rt, 4);
    };
    let frame_period = match arguments::periods(&rt, given) {
        Ok(frame_period) => frame_period,
        Err(place) => return say::decimal(&rt, place),
    };
    let mut optics = Optics::default();
    optics.full_swing = swing;
    report(&rt, optics, frame_period, driving, before, after)
}
