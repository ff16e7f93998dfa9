// The parameters and the table that a start is refused for (config.rs, `validate`).
#![tactic(auto)]

ghost use Rattle.std.specs.Prelude.{◌≡◌, not, [], ◌∷◌};
ghost use Rattle.voltage.specs.Codes.{is_voltage, source_voltage, vsl_voltage, vcom_voltage};
ghost use Rattle.config.specs.Answer.{first_of, answer_of};
ghost use Rattle.otp.specs.Table.{unlisted_voltage, voltages_test, start_tests};

use config::{ConfigError, Ssd1677Config};
use otp::ENTRY_BYTES;

fn is_unlisted_source(code: u8) -> bool
    ensures { result ≡ not (is_voltage (source_voltage code)) }
{
    voltage::source_millivolts(code).is_none()
}

fn is_unlisted_vsl(code: u8) -> bool
    ensures { result ≡ not (is_voltage (vsl_voltage code)) }
{
    voltage::vsl_millivolts(code).is_none()
}

fn is_unlisted_vcom(code: u8) -> bool
    ensures { result ≡ not (is_voltage (vcom_voltage code)) }
{
    voltage::vcom_millivolts(code).is_none()
}

// Bytes 106 to 109 of the setting, which begins at byte 6 of the entry.
fn has_unlisted_voltage(entry: &[u8; ENTRY_BYTES]) -> bool
    ensures { result ≡ unlisted_voltage entry.now 0 }
{
    let vsh1 = is_unlisted_source(entry[112]);
    let vsh2 = is_unlisted_source(entry[113]);
    let vsl = is_unlisted_vsl(entry[114]);
    let vcom = is_unlisted_vcom(entry[115]);
    vsh1 | vsh2 | vsl | vcom
}

// By their numbers, since that of the first one is told.
fn check_voltages(otp: &[u8]) -> Result<(), ConfigError>
    ensures { answer_of result ≡ first_of (voltages_test otp.now ∷ []) }
{
    let (entries, _) = otp.as_chunks::<ENTRY_BYTES>();
    for entry in 0..entries.len() {
        if has_unlisted_voltage(&entries[entry]) {
            return Err(ConfigError::OtpVoltage(entry));
        }
    }
    Ok(())
}

// The parameters a model cannot be built on.
pub fn validate(config: Ssd1677Config, otp: &[u8]) -> Result<(), ConfigError>
    ensures { answer_of result ≡ first_of (start_tests config otp.now) }
{
    config::check(config)?;
    otp::check_table(otp)?;
    check_voltages(otp)
}
