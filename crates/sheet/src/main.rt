// The setting of the drive sheet on standard input (docs/drive-sheet.md).
#![tactic(auto)]

use full_read::{is_at_end, read_full};
use std::io;

// One byte more than a sheet has, so that longer input is seen to be longer.
const INPUT_BYTES: usize = sheet_text::TEXT_BYTES + 1;

fn say(rt: &impl Eprint, words: &str) -> io::Result<()> {
    rt.eprint(words)
}

// What the numbers mean, for a person at a terminal; standard output has the number or the line alone.
fn say_why(rt: &impl Eprint, length: usize) -> io::Result<()> {
    if length < sheet_text::SETTING_BYTES {
        say(
            rt,
            "sheet: no setting: 61 a voltage has no code, 62 repeats outside 1 to 256, 63 a code too large, or the line that is bad\n",
        )?;
    }
    Ok(())
}

fn write_answer(rt: &(impl Print + Eprint), answer: &[u8]) -> io::Result<()> {
    if rt.write_all(answer).is_err() {
        say(rt, "sheet: the answer could not all be written\n")?;
    }
    Ok(())
}

fn answer_text(rt: &(impl Print + Eprint), text: &[u8]) -> io::Result<()> {
    let mut out = [0u8; sheet_text::SETTING_BYTES];
    let length = sheet_text::answer(text, &mut out);
    write_answer(rt, &out[..length])?;
    say_why(rt, length)
}

fn main(rt: HostRuntime) -> io::Result<()> {
    let mut text = [0u8; INPUT_BYTES];
    let mut input = rt.stdin();
    match read_full(&mut input, &mut text) {
        Ok(read) if read == INPUT_BYTES || is_at_end(&mut input).unwrap_or(false) => {
            answer_text(&rt, &text[..read])
        }
        _ => say(
            &rt,
            "sheet: standard input could not be read to its end, so there is no setting\n",
        ),
    }
}
