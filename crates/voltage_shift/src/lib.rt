// How far a change of one voltage can move a state (SCOPE, Sensitivity; #112).
#![tactic(auto)]

ghost use Rattle.std.specs.Prelude.{◌≡◌, ◌<◌, ◌≤◌, min, nat_abs, ◌-ℤ◌, ◌≤ℤ◌, length};
ghost use Rattle.numbers.specs.Choice.{pick};
ghost use Rattle.numbers.specs.Saturation.{largest};
ghost use Rattle.config.specs.Answer.{first_of};
ghost use Rattle.voltage.specs.Codes.{is_voltage};
ghost use Rattle.waveform.specs.Voltages.{or_zero, Listable};
ghost use Rattle.voltage_shift.specs.declared.ShiftError.TheVariants.{Parameters};
ghost use Rattle.voltage_shift.specs.Shift.{driving_millivolts, source_uses, vcom_uses, exactly_one, group_shift, shift_of, gray_steps};
ghost use Rattle.voltage_shift.specs.Bounds.{optics_swing, setting_tests, change_of, lut_shift, lut_shifts, shifts_for, shifting_unless, bounds_of, shift_answer};

use config::ConfigError;
use glass::Optics;
use waveform::{Group, Waveform};

// The voltages that drive (0x04).
#[derive(Clone, Copy)]
pub enum DrivingVoltage {
    Vsh1,
    Vsh2,
    Vsl,
}

// How far the states of a LUT may shift.
#[derive(Clone, Copy)]
pub struct Shift {
    // In millivolts × nanoseconds, as states are.
    pub bound: u64,
    // In steps of grey, rounded up: no grey shifts by more.
    pub steps: u8,
}

#[derive(Clone, Copy)]
pub struct Shifts {
    pub lut0: Shift,
    pub lut1: Shift,
    pub lut2: Shift,
    pub lut3: Shift,
}

// What refuses bounds.
#[derive(Clone, Copy)]
pub enum ShiftError {
    // 4 or 5.
    Parameters(ConfigError),
    // 11.
    NotASetting,
    // 91.
    UnlistedCode,
}

impl From<ConfigError> for ShiftError {
    ghost from_gives = { λ error made. made ≡ Parameters error };

    fn from(error: ConfigError) -> ShiftError {
        ShiftError::Parameters(error)
    }
}

pub const SETTING_BYTES: usize = 112;

// 2^63 − 1.
const LARGEST_SWING: u64 = 9223372036854775807;

fn driving_millivolts(driving: DrivingVoltage, code: u8) -> Option<i64>
    ensures is { result ≡ driving_millivolts driving code }
    ensures range { Listable (or_zero result) }
{
    match driving {
        DrivingVoltage::Vsh1 => voltage::source_millivolts(code),
        DrivingVoltage::Vsh2 => voltage::source_millivolts(code),
        DrivingVoltage::Vsl => voltage::vsl_millivolts(code),
    }
}

fn is_listed(driving: DrivingVoltage, code: u8) -> bool
    ensures { result ≡ is_voltage (driving_millivolts driving code) }
{
    driving_millivolts(driving, code).is_some()
}

// A code that is not listed drives with 0, as in a waveform.
fn driving_level(driving: DrivingVoltage, code: u8) -> i64
    ensures is { result ≡ or_zero (driving_millivolts driving code) }
    ensures range { Listable result }
{
    driving_millivolts(driving, code).unwrap_or(0)
}

fn rise(low: i64, high: i64) -> u64
    requires listable { Listable low × Listable high }
    requires order { low ≤ℤ high }
    ensures { result ≡ nat_abs (high -ℤ low) }
{
    (high - low) as u64
}

// Up or down.
fn change(driving: DrivingVoltage, before: u8, after: u8) -> u64
    ensures { result ≡ change_of driving before after }
{
    let from = driving_level(driving, before);
    let to = driving_level(driving, after);
    if from < to {
        return rise(from, to);
    }
    rise(to, from)
}

fn source_uses(driving: DrivingVoltage, code: u8) -> bool
    ensures { result ≡ source_uses driving code }
{
    match driving {
        DrivingVoltage::Vsh1 => code % 4 == 1,
        DrivingVoltage::Vsh2 => code % 4 == 3,
        DrivingVoltage::Vsl => code % 4 == 2,
    }
}

fn vcom_uses(driving: DrivingVoltage, code: u8) -> bool
    ensures { result ≡ vcom_uses driving code }
{
    match driving {
        DrivingVoltage::Vsh1 => code % 4 == 1,
        DrivingVoltage::Vsh2 => false,
        DrivingVoltage::Vsl => code % 4 == 2,
    }
}

// The frames of a phase, if it counts: exactly one of the source of a LUT and VCOM uses the voltage.
fn changing_frames(driving: DrivingVoltage, source: u8, vcom: u8, frames: u8) -> u64
    ensures is { result ≡ pick (exactly_one (source_uses driving source) (vcom_uses driving vcom)) frames 0 }
    ensures few { result < 256 }
{
    if source_uses(driving, source) != vcom_uses(driving, vcom) {
        return u64::from(frames);
    }
    0
}

// The nearest grey, or the next where its level falls short: 255 × bound / swing, rounded up, without the product.
fn gray_steps(bound: u64, swing: u64) -> u8
    requires { (bound ≤ swing) × (1 ≤ swing) × (swing ≤ largest 63) }
    ensures { result ≡ gray_steps swing bound }
{
    let gray = glass::gray(bound as i64, swing as i64);
    if glass::level(gray, swing as i64) < bound as i64 {
        return gray + 1;
    }
    gray
}

// A change of a voltage, without its sign.
#[derive(Clone, Copy)]
struct VoltageChange {
    driving: DrivingVoltage,
    millivolts: u64,
}

impl VoltageChange {
    // All repeats of a group.
    fn group_shift(self, group: Group, lut: usize) -> u64
        requires { lut < 4 }
        ensures { result ≡ min (group_shift self.millivolts self.driving group lut) (largest 64) }
    {
        // A LUT goes by its number, as in the definition: the codes of all five lie in one array.
        let codes = group.codes;
        let [a, b, c, d] = group.frames;
        let first = changing_frames(self.driving, codes[4 * lut], codes[16], a);
        let second = changing_frames(self.driving, codes[4 * lut + 1], codes[17], b);
        let third = changing_frames(self.driving, codes[4 * lut + 2], codes[18], c);
        let fourth = changing_frames(self.driving, codes[4 * lut + 3], codes[19], d);
        let frames = first + second + third + fourth;
        let runs = frames.saturating_mul(u64::from(group.repeats));
        let drive = runs.saturating_mul(self.millivolts);
        drive.saturating_mul(group.frame_ns)
    }

    // Ten groups.
    fn waveform_shift(self, waveform: Waveform, lut: usize) -> u64
        requires { lut < 4 }
        ensures { result ≡ min (shift_of self.millivolts self.driving waveform.groups lut) (largest 64) }
    {
        let mut total: u64 = 0;
        for group in waveform.groups {
            total = total.saturating_add(self.group_shift(group, lut));
        }
        total
    }

    // A sum that stops at 2^64 − 1 is above any swing.
    fn lut_shift(self, swing: u64, waveform: Waveform, lut: usize) -> Shift
        requires some { (1 ≤ swing) × (swing ≤ largest 63) }
        requires lut { lut < 4 }
        ensures { result ≡ lut_shift swing self.millivolts self.driving waveform.groups lut }
    {
        let bound = self.waveform_shift(waveform, lut).min(swing);
        let steps = gray_steps(bound, swing);
        Shift { bound, steps }
    }

    fn lut_shifts(self, swing: u64, waveform: Waveform) -> Shifts
        requires { (1 ≤ swing) × (swing ≤ largest 63) }
        ensures { result ≡ lut_shifts swing self.millivolts self.driving waveform.groups }
    {
        let lut0 = self.lut_shift(swing, waveform, 0);
        let lut1 = self.lut_shift(swing, waveform, 1);
        let lut2 = self.lut_shift(swing, waveform, 2);
        let lut3 = self.lut_shift(swing, waveform, 3);
        Shifts {
            lut0,
            lut1,
            lut2,
            lut3,
        }
    }
}

fn swing_of(optics: Optics) -> u64
    ensures { result ≡ optics_swing optics }
{
    optics.full_swing.min(LARGEST_SWING)
}

// 11, 91, and the bounds.
fn setting_bounds(
    optics: Optics,
    frame_period: [u64; 16],
    setting: &[u8],
    driving: DrivingVoltage,
    before: u8,
    after: u8,
) -> Result<Shifts, ShiftError>
    requires { 1 ≤ optics.full_swing }
    ensures { shift_answer result ≡ shifting_unless (first_of (setting_tests setting.now driving before after)) (shifts_for optics frame_period setting.now driving before after) }
{
    let listed = is_listed(driving, before) & is_listed(driving, after);
    let Ok(setting) = <&[u8; SETTING_BYTES]>::try_from(setting) else {
        return Err(ShiftError::NotASetting);
    };
    if !listed {
        return Err(ShiftError::UnlistedCode);
    }
    let waveform = setting::from_setting(setting, &frame_period);
    let millivolts = change(driving, before, after);
    let swing = swing_of(optics);
    let change = VoltageChange {
        driving,
        millivolts,
    };
    Ok(change.lut_shifts(swing, waveform))
}

// How far each LUT's states may shift when the code of `driving` changes from `before` to `after`, whatever `setting` has for it.
pub fn bounds(
    optics: Optics,
    frame_period: [u64; 16],
    setting: &[u8],
    driving: DrivingVoltage,
    before: u8,
    after: u8,
) -> Result<Shifts, ShiftError>
    ensures { shift_answer result ≡ bounds_of optics frame_period setting.now driving before after }
{
    config::check_swing(optics)?;
    config::check_periods(frame_period)?;
    setting_bounds(optics, frame_period, setting, driving, before, after)
}
