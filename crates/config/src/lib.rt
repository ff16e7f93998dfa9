// The parameters of an SSD1677 and of the panel it drives: what the datasheet leaves open, what belongs to the glass, and what no
// source gives (config.rs). The waveforms in the panel's OTP are a lent table of their own.
#![tactic(auto)]

ghost use Rattle.std.specs.Prelude.{[], ◌∷◌, ◌≡◌, pos, ◌*ℤ◌};
ghost use Rattle.config.specs.Temperature.{coldest, warmest, sixteenths_of, register_of, from_sixteenths};
ghost use Rattle.config.specs.Answer.{first_of, answer_of};
ghost use Rattle.config.specs.Tests.{geometry_tests, swing_test, periods_test, frequency_test, config_tests};
ghost use Rattle.config.specs.Defaults.{default_gate_scan, default_timing};

use glass::{Optics, Provenance};

// Sources of the controller: the width of each RAM plane, in pixels (datasheet §1).
pub const RAM_SOURCES: u16 = 960;

// Gates of the controller: the height of each RAM plane, in rows (datasheet §1).
pub const RAM_GATES: u16 = 680;

const MILLISECOND: u64 = 1_000_000;

// ASSUMPTION: the datasheet does not tabulate the periods of the frame-rate codes. 25 ms are those of the panels in use (#105); the Rust has
// 20 ms.
const FRAME_PERIOD: u64 = 25_000_000;

// The gate-scan bits of command 0x01: SM (no left and right interlacing) and GD (the first output gate is G1). The datasheet's
// Table 8-2 gives the RAM row each gate shows for each pair.
#[derive(Clone, Copy)]
pub struct GateScan {
    pub sm: bool,
    pub gd: bool,
}

impl Default for GateScan {
    ghost is_default = { λ scan. scan ≡ default_gate_scan };

    fn default() -> GateScan {
        GateScan {
            sm: false,
            gd: false,
        }
    }
}

// The glass behind the controller: which sources and gates it uses, and in what order its rows lie.
#[derive(Clone, Copy)]
pub struct PanelGeometry {
    // Pixels in a row: the sources the panel uses.
    pub width: u16,
    // Rows: the gates the panel uses, from G0.
    pub height: u16,
    // The source of the panel's first column; RAM column x drives source x.
    pub first_source: u16,
    // The panel's first column is its last source.
    pub columns_reversed: bool,
    // The gate-scan setting under which the RAM's rows lie on the glass in sequence.
    pub native_scan: GateScan,
    // Under the native setting, the last RAM row is the top row of the glass.
    pub rows_reversed: bool,
}

// How long each operation keeps BUSY high, in nanoseconds. Every value the datasheet does not give is an ASSUMPTION.
#[derive(Clone, Copy)]
pub struct Ssd1677Timing {
    pub provenance: Provenance,
    // Starting the clock (0x22 bit 7).
    pub clock_on: u64,
    // Starting the analog supplies (bit 6).
    pub analog_on: u64,
    // Stopping them (bit 1).
    pub analog_off: u64,
    // Reading the internal temperature sensor (bit 5, 0x18 = 80h).
    pub temperature_internal: u64,
    // Reading the external sensor over the controller's I2C (bit 5, 0x18 = 48h).
    pub temperature_external: u64,
    // Loading a waveform from OTP (bit 4).
    pub lut_load: u64,
    // The SW reset (0x12).
    pub soft_reset: u64,
    // After RES# rises.
    pub hardware_reset: u64,
    // The auto write of a plane (0x46, 0x47).
    pub auto_write: u64,
    // The VCI detection (0x15).
    pub vci_detection: u64,
    // The period of one frame for each of the sixteen frame-rate codes of the LUT.
    pub frame_period: [u64; 16],
}

impl Default for Ssd1677Timing {
    ghost is_default = { λ timing. timing ≡ default_timing };

    fn default() -> Ssd1677Timing {
        Ssd1677Timing {
            provenance: Provenance::Approximation,
            clock_on: 0,
            analog_on: 100 * MILLISECOND,
            analog_off: 200 * MILLISECOND,
            temperature_internal: 5 * MILLISECOND,
            temperature_external: 5 * MILLISECOND,
            lut_load: MILLISECOND,
            soft_reset: 2 * MILLISECOND,
            hardware_reset: MILLISECOND,
            auto_write: 2 * MILLISECOND,
            vci_detection: MILLISECOND,
            frame_period: [FRAME_PERIOD; 16],
        }
    }
}

// A temperature in the controller's format: twelve bits, two's complement, in sixteenths of a degree Celsius (datasheet §6.8.3).
#[derive(Clone, Copy)]
pub struct Temperature(i16);

impl Temperature {
    // The lowest value of the format, 800h, −128 °C.
    pub const MIN: Temperature = Temperature(-2048);

    // The highest value of the format, 7FFh, 127.9375 °C; the temperature register's reset value.
    pub const MAX: Temperature = Temperature(2047);

    pub fn from_sixteenths(sixteenths: i16) -> Option<Temperature>
        ensures { result ≡ from_sixteenths sixteenths }
    {
        let coldest = Temperature::MIN;
        let warmest = Temperature::MAX;
        if sixteenths < coldest.0 {
            return None;
        }
        if warmest.0 < sixteenths {
            return None;
        }
        Some(Temperature(sixteenths))
    }

    // A whole number of degrees Celsius. An i8 times 16 never leaves the format, so nothing saturates.
    pub fn from_celsius(celsius: i8) -> Temperature
        ensures { result.0 ≡ pos 16 *ℤ celsius }
    {
        Temperature(16 * (celsius as i16))
    }

    pub fn sixteenths(self) -> i16
        ensures { result ≡ self.0 }
    {
        self.0
    }

    // The twelve-bit register value.
    pub fn register(self) -> u16
        ensures { result ≡ register_of self.0 }
    {
        let sixteenths = self.0;
        if sixteenths < 0 {
            return 4095 - (-(sixteenths + 1)) as u16 % 4096;
        }
        sixteenths as u16 % 4096
    }

    // The temperature a twelve-bit register value stands for; bits above the twelfth are ignored.
    pub fn from_register(register: u16) -> Temperature
        ensures { result.0 ≡ sixteenths_of register }
    {
        let value = register & 0xFFF;
        if value & 0x800 == 0 {
            return Temperature(value as i16);
        }
        Temperature(value as i16 - 0x1000)
    }
}

// The two display modes of 0x22 bit 3 and of the waveform settings in OTP (0x37). As numbers, in a table and in the log, 0 and 1.
#[derive(Clone, Copy)]
pub enum DisplayMode {
    // Mode 1: the full waveforms on the X4 (0xF7, 0xD7).
    One,
    // Mode 2: the fast, differential waveform on the X4 (0xFC) and the custom-LUT one (0xCC).
    Two,
}

// Everything an SSD1677 model is built from but the table of waveforms.
#[derive(Clone, Copy)]
pub struct Ssd1677Config {
    pub panel: PanelGeometry,
    pub optics: Optics,
    pub timing: Ssd1677Timing,
    // BUSY is high while busy (datasheet Table 5-2); a board that inverts the line sets it false.
    pub busy_active_high: bool,
    // The register that the internal sensor reads, of which the low twelve bits count.
    pub ambient: u16,
    pub external_sensor: Option<u16>,
    // The supply VCI, for the VCI detection (0x15).
    pub vci_millivolts: u32,
    // The user ID of the OTP, read by 0x2E and loaded into its register at reset.
    pub user_id: [u8; 10],
    // Cycles a second of the time base, which times are counted in (#101).
    pub frequency: u32,
}

// Parameters an SSD1677 model cannot be built on.
#[derive(Clone, Copy)]
pub enum ConfigError {
    // The panel has no pixel.
    EmptyPanel,
    // The panel does not fit the controller's sources and gates.
    PanelOutsideRam,
    // A native gate scan with GD = 1 swaps gates in pairs, which an odd number of rows cannot hold.
    OddRowsWithGd,
    // The drive of a full swing is 0: every pixel would jump between black and white.
    ZeroSwing,
    // The frame period of this frame-rate code is 0.
    ZeroFramePeriod(usize),
    // The time base, which times are counted in, stands still.
    ZeroFrequency,
    // The bytes lent are no table of waveforms.
    BadTable,
    // The waveform of this index holds a source or VCOM voltage that the datasheet does not list.
    OtpVoltage(usize),
}

pub fn check_geometry(panel: PanelGeometry) -> Result<(), ConfigError>
    ensures { answer_of result ≡ first_of (geometry_tests panel) }
{
    let native = panel.native_scan;
    let sources = (panel.first_source as u32) + (panel.width as u32);
    if (panel.width == 0) | (panel.height == 0) {
        return Err(ConfigError::EmptyPanel);
    }
    if ((RAM_SOURCES as u32) < sources) | (RAM_GATES < panel.height) {
        return Err(ConfigError::PanelOutsideRam);
    }
    if native.gd & (panel.height % 2 == 1) {
        return Err(ConfigError::OddRowsWithGd);
    }
    Ok(())
}

pub fn check_swing(optics: Optics) -> Result<(), ConfigError>
    ensures { answer_of result ≡ first_of (swing_test optics ∷ []) }
{
    if optics.full_swing == 0 {
        return Err(ConfigError::ZeroSwing);
    }
    Ok(())
}

pub fn check_periods(periods: [u64; 16]) -> Result<(), ConfigError>
    ensures { answer_of result ≡ first_of (periods_test periods ∷ []) }
{
    for code in 0..16 {
        if periods[code] == 0 {
            return Err(ConfigError::ZeroFramePeriod(code));
        }
    }
    Ok(())
}

fn check_frequency(frequency: u32) -> Result<(), ConfigError>
    ensures { answer_of result ≡ first_of (frequency_test frequency ∷ []) }
{
    if frequency == 0 {
        return Err(ConfigError::ZeroFrequency);
    }
    Ok(())
}

// What is refused of a configuration whatever the table: 1 to 5, then 14.
pub fn check(config: Ssd1677Config) -> Result<(), ConfigError>
    ensures { answer_of result ≡ first_of (config_tests config) }
{
    let timing = config.timing;
    check_geometry(config.panel)?;
    check_swing(config.optics)?;
    check_periods(timing.frame_period)?;
    check_frequency(config.frequency)
}
