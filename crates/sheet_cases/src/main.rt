// Drive sheets, both ways, of the cases that stand one after the other on standard input. A case is 584 bytes: `t` for a text or `s` for
// a setting, how many bytes it has, the low byte first, and these with zeros behind them. A text is answered as `sheet` answers it. A
// setting is answered by the text of its sheet and by what `sheet` answers to that.
#![tactic(auto)]

use full_read::read_full;
use std::io;
use std::io::Read;

// One byte more than a sheet has.
const MOST: usize = sheet_text::TEXT_BYTES + 1;

fn answer_text(rt: &impl Print, text: &[u8]) -> io::Result<()> {
    let mut out = [0u8; sheet_text::SETTING_BYTES];
    let length = sheet_text::answer(text, &mut out);
    rt.write_all(&out[..length])
}

fn text_case(rt: &impl Print, body: &[u8], length: usize) -> io::Result<()> {
    if length <= body.len() {
        answer_text(rt, &body[..length])?;
    }
    Ok(())
}

fn answer_setting(rt: &impl Print, setting: &[u8; 112]) -> io::Result<()> {
    let sheet = drive_sheet::read(setting);
    let mut text = [0u8; sheet_text::TEXT_BYTES];
    let length = sheet_text::put(sheet, &mut text);
    let written: &[u8] = &text[..length];
    rt.write_all(written)?;
    answer_text(rt, written)
}

fn setting_case(rt: &impl Print, body: &[u8]) -> io::Result<()> {
    let mut setting = [0u8; 112];
    if 112 <= body.len() {
        setting.copy_from_slice(&body[..112]);
    }
    answer_setting(rt, &setting)
}

fn count(low: u8, high: u8) -> usize {
    usize::from(low) + 256 * usize::from(high)
}

// Answers whether to go on.
fn next_case(rt: &impl Print, cases: &mut impl Read) -> io::Result<bool> {
    let mut head = [0u8; 3];
    if read_full(cases, &mut head)? < 3 {
        return Ok(false);
    }
    let mut body = [0u8; MOST];
    read_full(cases, &mut body)?;
    if head[0] == b's' {
        setting_case(rt, &body)?;
        return Ok(true);
    }
    text_case(rt, &body, count(head[1], head[2]))?;
    Ok(true)
}

// Nothing says that the input ends, so the turns have a bound that no run reaches.
fn main(rt: HostRuntime) -> io::Result<()> {
    let mut cases = rt.stdin();
    for _ in 0..u64::MAX {
        if !next_case(&rt, &mut cases)? {
            break;
        }
    }
    Ok(())
}
