// The charge that each waveform of the OTP table on standard input leaves in the glass (SCOPE, Charge). Sixteen arguments are the frame
// period of each frame-rate code, in nanoseconds; with none every period is the default.
#![tactic(auto)]

mod arguments;
mod say;

ghost use Rattle.std.specs.Prelude.{◌≤◌, length};

use charges::{ChargeError, LINE_BYTES};
use config::Ssd1677Timing;
use full_read::{is_at_end, read_full};
use otp::{ENTRY_BYTES, MOST_ENTRIES};
use std::io;
use std::io::Input;

// One byte more than the longest table has, so that longer input is seen to be longer.
const INPUT_BYTES: usize = ENTRY_BYTES * MOST_ENTRIES + 1;

const TEXT_BYTES: usize = LINE_BYTES * MOST_ENTRIES;

fn default_periods() -> [u64; 16] {
    let timing = Ssd1677Timing::default();
    timing.frame_period
}

fn write_lines(rt: &(impl Print + Eprint), lines: &[u8]) -> io::Result<()> {
    if rt.write_all(lines).is_err() {
        say::words(rt, "charge: the lines could not all be written\n")?;
    }
    Ok(())
}

// The lines of a table, as long as those of its entries, or its refusal.
fn answer(
    rt: &(impl Print + Eprint),
    table: &[u8],
    frame_period: [u64; 16],
    lines: &mut [u8],
) -> io::Result<()> {
    match charges::report(frame_period, table, lines) {
        Ok(()) => write_lines(rt, lines),
        Err(ChargeError::Parameters(error)) => say::refused(rt, error, table),
        Err(ChargeError::LongPeriod) => say::long_period(rt, frame_period),
        Err(ChargeError::OtherLength) => say::refusal(rt, 11),
    }
}

fn answer_table(rt: &(impl Print + Eprint), table: &[u8], frame_period: [u64; 16]) -> io::Result<()>
    requires { length table.now ≤ 7553 }
{
    let mut text = [0u8; TEXT_BYTES];
    let end = LINE_BYTES * (table.len() / ENTRY_BYTES);
    answer(rt, table, frame_period, &mut text[..end])
}

fn answer_input(rt: &(impl Input + Print + Eprint), frame_period: [u64; 16]) -> io::Result<()> {
    let mut table = [0u8; INPUT_BYTES];
    let mut input = rt.reader();
    match read_full(&mut input, &mut table) {
        Ok(read) if read == INPUT_BYTES || is_at_end(&mut input).unwrap_or(false) => {
            answer_table(rt, &table[..read], frame_period)
        }
        _ => say::failure(rt, "charge: standard input could not be read to its end\n"),
    }
}

fn main(rt: HostRuntime) -> io::Result<()> {
    let mut frame_period = default_periods();
    if arguments::take(&rt, &mut frame_period)? {
        answer_input(&rt, frame_period)?;
    }
    Ok(())
}
