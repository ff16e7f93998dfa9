// A drive sheet as text (docs/drive-sheet.md; #104): written, read, and the setting or the refusal that a text is answered with.
#![tactic(auto)]

mod lines;
mod places;

ghost use Rattle.std.specs.Prelude.{◌≡◌, ◌^◌, ◌<◌, ◌≤◌, length};
ghost use Rattle.column.specs.Columns.{buffer, gathered};
ghost use Rattle.drive_sheet.specs.Tests.{setting_length};
ghost use Rattle.sheet_text.specs.Text.{put_in};
ghost use Rattle.sheet_text.specs.Reading.{line_after, differs_in, drawing_of};
ghost use Rattle.sheet_text.specs.Answer.{number_text, setting_text, digits_of, bad_line_text, answer_text, answered_in};

use column::Columns;
use drive_sheet::Sheet;

// Ten lines of 52 bytes, and five of 12.
pub const TEXT_BYTES: usize = 580;

pub const SETTING_BYTES: usize = 112;

type Text = Columns<TEXT_BYTES>;

type Answer = Columns<SETTING_BYTES>;

// What a text says.
#[derive(Clone, Copy)]
pub struct Drawing {
    // The first line that no sheet that fits the columns has there, counted from 1; none where the text is such a sheet's.
    pub bad_line: Option<usize>,
    // The numbers at their places.
    pub sheet: Sheet,
}

// The text of a sheet, to the front of `out`; answers its length. An `out` of fewer than 580 bytes stays as it is, and the answer is 0.
// Of a sheet that does not fit the columns (a LUT code of 10, ..) the last digits of the numbers are written: the text of another sheet, or
// one with leading zeros, which has a bad line.
pub fn put(sheet: Sheet, out: &mut [u8]) -> usize
    ensures text { buffer result out.new ≡ put_in sheet out.old }
    ensures within { result ≤ length out.new }
{
    // Before the text is made, which the test in `write_to` comes after.
    if out.len() < TEXT_BYTES {
        return 0;
    }
    lines::text_of(sheet).write_to(out)
}

// The line after a byte of a line.
fn line_after(line: usize, byte: u8) -> usize
    requires { line < 2 ^ 63 }
    ensures { result ≡ line_after line byte }
{
    if byte == b'\n' { line + 1 } else { line }
}

// The line, counted from 1, in which a text first differs from a sheet's; none where it is that.
fn differing_line(text: &[u8], written: &[u8]) -> Option<usize>
    ensures { result ≡ differs_in 1 text.now written.now }
{
    let mut line: usize = 1;
    for (byte, other) in text.iter().zip(written) {
        if byte != other {
            return Some(line);
        }
        line = line_after(line, *byte);
    }
    if text.len() == written.len() {
        return None;
    }
    Some(line)
}

pub fn read(text: &[u8]) -> Drawing
    ensures { result ≡ drawing_of text.now }
{
    let sheet = places::sheet_in(text);
    let bad_line = differing_line(text, lines::text_of(sheet).text());
    Drawing { bad_line, sheet }
}

// The digits of a line's number.
fn digits(line: usize) -> usize
    ensures { result ≡ digits_of line }
{
    if line < 10 { 1 } else { 2 }
}

// `bad line N`.
fn put_bad_line(answer: &mut Answer, line: usize)
    ensures { answer.new ≡ gathered setting_length answer.old (bad_line_text line) }
{
    answer.put_text(b"bad line ");
    answer.put_number(digits(line), line as u64);
    answer.put(b'\n');
}

// The number of a refusal.
fn put_number(answer: &mut Answer, number: u8)
    ensures { answer.new ≡ gathered setting_length answer.old (number_text number) }
{
    answer.put_number(3, u64::from(number));
    answer.put(b'\n');
}

// The setting of a sheet that `write` accepts, else the number of its refusal.
fn put_setting(answer: &mut Answer, sheet: Sheet)
    ensures { answer.new ≡ gathered setting_length answer.old (setting_text sheet) }
{
    let mut setting = [0u8; SETTING_BYTES];
    match drive_sheet::write(sheet, &mut setting) {
        Ok(()) => answer.put_text(&setting),
        Err(error) => put_number(answer, u8::from(error)),
    }
}

fn answer_to(text: &[u8]) -> Answer
    ensures { result ≡ answer_text text.now }
{
    let drawing = read(text);
    let mut answer = Answer::new();
    match drawing.bad_line {
        Some(line) => put_bad_line(&mut answer, line),
        None => put_setting(&mut answer, drawing.sheet),
    }
    answer
}

// What a text is answered with, to the front of `out`, and its length: the 112 bytes of its setting, the number of a refusal, or the line
// that is bad. An `out` of fewer than 112 bytes stays as it is, and the answer is 0.
pub fn answer(text: &[u8], out: &mut [u8]) -> usize
    ensures text { buffer result out.new ≡ answered_in text.now out.old }
    ensures within { result ≤ length out.new }
{
    if out.len() < SETTING_BYTES {
        return 0;
    }
    answer_to(text).write_to(out)
}
