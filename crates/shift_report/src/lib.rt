// What `sensitivity` writes (SCOPE, Sensitivity): a line for each LUT, or a refusal's number.
#![tactic(auto)]

pub mod words;

ghost use Rattle.std.specs.Prelude.{◌≡◌, ◌≤◌, length};
ghost use Rattle.config.specs.Answer.{refused_by};
ghost use Rattle.column.specs.Columns.{buffer, gathered};
ghost use Rattle.voltage_shift.specs.Bounds.{shift_refusal, shift_answer};
ghost use Rattle.shift_report.specs.Report.{shift_line, shift_lines, answer_number, number_line, shift_text, lines_room, at_front, bounds_text};

use column::Columns;
use config::ConfigError;
use glass::Optics;
use voltage_shift::{DrivingVoltage, Shift, ShiftError, Shifts};

// The bytes of four lines.
pub const ROOM: usize = 112;

type Text = Columns<ROOM>;

fn put_line(text: &mut Text, lut: u64, shift: Shift)
    ensures { text.new ≡ gathered lines_room text.old (shift_line lut shift) }
{
    text.put_number(3, lut);
    text.put_number(20, shift.bound);
    text.put_number(4, u64::from(shift.steps));
    text.put(b'\n');
}

fn put_lines(text: &mut Text, shifts: Shifts)
    ensures { text.new ≡ gathered lines_room text.old (shift_lines shifts) }
{
    put_line(text, 0, shifts.lut0);
    put_line(text, 1, shifts.lut1);
    put_line(text, 2, shifts.lut2);
    put_line(text, 3, shifts.lut3);
}

// A refusal's number in three columns, as `wavelist` has it.
fn put_number(text: &mut Text, number: u64)
    ensures { text.new ≡ gathered lines_room text.old (number_line number) }
{
    text.put_number(3, number);
    text.put(b'\n');
}

// No `From`: both types are of other crates. 4 and 5 are the ones that bounds are refused with.
fn config_number(error: ConfigError) -> u64
    ensures { result ≡ answer_number (refused_by error) }
{
    match error {
        ConfigError::EmptyPanel => 1,
        ConfigError::PanelOutsideRam => 2,
        ConfigError::OddRowsWithGd => 3,
        ConfigError::ZeroSwing => 4,
        ConfigError::ZeroFramePeriod(_) => 5,
        ConfigError::OtpVoltage(_) => 6,
        ConfigError::BadTable => 12,
        ConfigError::ZeroFrequency => 14,
    }
}

fn number_of(error: ShiftError) -> u64
    ensures { result ≡ answer_number (shift_refusal error) }
{
    match error {
        ShiftError::Parameters(error) => config_number(error),
        ShiftError::NotASetting => 11,
        ShiftError::UnlistedCode => 91,
    }
}

fn text_of(bounded: Result<Shifts, ShiftError>) -> Text
    ensures { result ≡ shift_text (shift_answer bounded) }
{
    let mut text = Text::new();
    match bounded {
        Ok(shifts) => put_lines(&mut text, shifts),
        Err(error) => put_number(&mut text, number_of(error)),
    }
    text
}

// Writes the bounds of `voltage_shift::bounds` to the front of `out`, a line for each LUT, or the number of the refusal, and answers how
// many bytes. An `out` of fewer than 112 bytes stays as it is, and the answer is 0.
pub fn report(
    optics: Optics,
    frame_period: [u64; 16],
    setting: &[u8],
    driving: DrivingVoltage,
    before: u8,
    after: u8,
    out: &mut [u8],
) -> usize
    ensures text { buffer result out.new ≡ at_front (bounds_text optics frame_period setting.now driving before after) out.old }
    ensures within { result ≤ length out.new }
{
    // Before the bounds are worked out, which the test in `write_to` comes after.
    if out.len() < ROOM {
        return 0;
    }
    let bounded = voltage_shift::bounds(optics, frame_period, setting, driving, before, after);
    text_of(bounded).write_to(out)
}
