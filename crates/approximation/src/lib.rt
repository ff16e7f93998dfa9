// Whether what the model shows rests on values not measured on a device (config.rs, `is_approximation`).
#![tactic(auto)]

ghost use Rattle.std.specs.Prelude.{◌≡◌};
ghost use Rattle.otp.specs.Table.{entry_count};
ghost use Rattle.otp.specs.Search.{any_of};
ghost use Rattle.approximation.specs.Approximation.{approximate, approximate_entry, approximated, outcome_of};

use config::{ConfigError, Ssd1677Config};
use glass::Provenance;
use otp::ENTRY_BYTES;

fn is_approximate(provenance: Provenance) -> bool
    ensures { result ≡ approximate provenance }
{
    match provenance {
        Provenance::Approximation => true,
        Provenance::Measured => false,
    }
}

fn any_approximate_entry(otp: &[u8]) -> bool
    ensures { result ≡ any_of (approximate_entry otp.now) (entry_count otp.now) }
{
    let (entries, _) = otp.as_chunks::<ENTRY_BYTES>();
    let mut any = false;
    for entry in entries {
        any |= entry[1] == 0;
    }
    any
}

// Whether any part of what the model shows rests on values not measured on a device: the optics, the durations or a waveform of the
// table. An interface showing the panel says "approximation" when it is true. A table that 12 refuses is refused.
pub fn is_approximation(config: Ssd1677Config, otp: &[u8]) -> Result<bool, ConfigError>
    ensures { outcome_of result ≡ approximated config otp.now }
{
    let optics = config.optics;
    let timing = config.timing;
    let of_glass = optics.provenance;
    let of_durations = timing.provenance;
    otp::check_table(otp)?;
    let glass = is_approximate(of_glass);
    let durations = is_approximate(of_durations);
    let entries = any_approximate_entry(otp);
    Ok(glass | durations | entries)
}
