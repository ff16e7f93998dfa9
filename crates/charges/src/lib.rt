// The charge that waveforms leave in the glass (SCOPE, Charge): a panel driven one way for a season keeps a shadow.
#![tactic(auto)]

mod line;
mod sum;

ghost use Rattle.std.specs.Prelude.{◌≡◌, [], ◌∷◌, ◌*◌, pos, length};
ghost use Rattle.config.specs.Answer.{first_of, answer_of};
ghost use Rattle.config.specs.Tests.{periods_test};
ghost use Rattle.otp.specs.Table.{entry_count, table_test};
ghost use Rattle.charges.specs.declared.ChargeError.TheVariants.{Parameters};
ghost use Rattle.charges.specs.Charge.{charge_of, long_period_test, with_answer, tested, lut_number, charged_of, charge_tests, AllShort};
ghost use Rattle.charges.specs.Report.{charge_text, charge_line_bytes, report_tests, reported_of};

use config::ConfigError;
use otp::ENTRY_BYTES;

// Bytes of a line: the entry's number in 3 columns, four sums in 21 each, and LF.
pub const LINE_BYTES: usize = 88;

// Bytes of a setting.
const SETTING_BYTES: usize = 112;

// 81 refuses a longer frame period, in nanoseconds: up to it no sum leaves 64 bits.
pub const LONGEST_PERIOD: u64 = 100_000_000;

// The LUTs that drive pixels; LUT 4 drives VCOM.
#[derive(Clone, Copy)]
pub enum PixelLut {
    Lut0,
    Lut1,
    Lut2,
    Lut3,
}

// What refuses a sum or a report.
#[derive(Clone, Copy)]
pub enum ChargeError {
    // 5 or 12.
    Parameters(ConfigError),
    // 81: a frame period above 100,000,000 ns.
    LongPeriod,
    // 11: the setting is not 112 bytes long, or the buffer has another length than the lines.
    OtherLength,
}

impl From<ConfigError> for ChargeError {
    ghost from_gives = { λ error made. made ≡ Parameters error };

    fn from(error: ConfigError) -> ChargeError {
        ChargeError::Parameters(error)
    }
}

// By `|`: the contract speaks of `any_of` over codes, so that `any` is no plainer.
fn has_long_period(frame_period: [u64; 16]) -> bool
    ensures { result ≡ (long_period_test frame_period).refuses }
{
    let mut long = false;
    for ns in frame_period {
        long |= LONGEST_PERIOD < ns;
    }
    long
}

// 5, then 12.
fn check_parameters(frame_period: [u64; 16], otp: &[u8]) -> Result<(), ConfigError>
    ensures { answer_of result ≡ first_of (periods_test frame_period ∷ table_test otp.now ∷ []) }
{
    config::check_periods(frame_period)?;
    otp::check_table(otp)
}

// The charge that one LUT of a setting leaves, in millivolts × nanoseconds. An unlisted source voltage counts as 0.
pub fn charge(frame_period: [u64; 16], setting: &[u8], lut: PixelLut) -> Result<i64, ChargeError>
    ensures { charged_of result ≡ tested (charge_tests frame_period setting.now) (pos 0) (charge_of setting.now frame_period (lut_number lut)) }
{
    config::check_periods(frame_period)?;
    if has_long_period(frame_period) {
        return Err(ChargeError::LongPeriod);
    }
    let Ok(setting) = <&[u8; SETTING_BYTES]>::try_from(setting) else {
        return Err(ChargeError::OtherLength);
    };
    let waveform = setting::from_setting(setting, &frame_period);
    Ok(sum::charge_of(waveform, lut as usize))
}

// The lines of all entries, which fill `out`.
fn put_text(out: &mut [u8], otp: &[u8], frame_period: &[u64; 16])
    requires room { length out.old ≡ charge_line_bytes * entry_count otp.now }
    requires periods { AllShort frame_period.now }
    ensures { out.new ≡ charge_text frame_period.now otp.now }
{
    let mut setting = [0u8; SETTING_BYTES];
    for entry in 0..otp.len() / ENTRY_BYTES {
        let from = ENTRY_BYTES * entry + 6;
        setting.copy_from_slice(&otp[from..from + SETTING_BYTES]);
        let line = line::line_of(&setting, entry, frame_period);
        let at = LINE_BYTES * entry;
        out[at..at + LINE_BYTES].copy_from_slice(line.text());
    }
}

// Fills `out` with a line for each entry of the table: its number and the charge of LUT 0 to 3, in millivolts × nanoseconds. An unlisted
// source voltage counts as 0. Refused, `out` stays as it is.
pub fn report(frame_period: [u64; 16], otp: &[u8], out: &mut [u8]) -> Result<(), ChargeError>
    ensures { with_answer (reported_of result) out.new ≡ tested (report_tests frame_period otp.now out.old) out.old (charge_text frame_period otp.now) }
{
    check_parameters(frame_period, otp)?;
    let long_period = has_long_period(frame_period);
    let other_length = out.len() != LINE_BYTES * (otp.len() / ENTRY_BYTES);
    if long_period {
        return Err(ChargeError::LongPeriod);
    }
    if other_length {
        return Err(ChargeError::OtherLength);
    }
    put_text(out, otp, &frame_period);
    Ok(())
}
