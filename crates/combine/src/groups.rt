// The groups of a setting and their phases, read where the bytes stand (datasheet Figure 6-6): a waveform made of all of them
// is 424 bytes, written before any of it is read. So a group and a phase go by their numbers, which must be below 10 and 4.
ghost use Rattle.std.specs.Prelude.{◌≡◌, ◌<◌, get_or};
ghost use Rattle.waveform.specs.Phases.{Takes, code_for};
ghost use Rattle.waveform.specs.Setting.{code_in, codes_of, frame_rate_of, group_codes_of};
ghost use Rattle.waveform.specs.Walks.{Drivable, phase_in};
ghost use Rattle.combine.specs.Groups.{timed_group};

use waveform::{Drive, Driving, Phase};

pub(crate) fn frames(setting: &[u8; 112], group: usize, phase: usize) -> u64
    requires { (group < 10) × (phase < 4) }
    ensures { result ≡ get_or (group_codes_of setting.now group).frames phase 0 }
{
    u64::from(setting[50 + 5 * group + phase])
}

fn frame_ns(setting: &[u8; 112], frame_period: &[u64; 16], group: usize) -> u64
    requires { group < 10 }
    ensures { result ≡ get_or frame_period.now (frame_rate_of setting.now group) 0 }
{
    let rate = setting::frame_rate_code(setting, group);
    frame_period[rate]
}

// One of the four codes of a byte, phase 0 highest.
fn code_in(byte: u8, phase: usize) -> u8
    requires { phase < 4 }
    ensures { result ≡ code_in byte phase }
{
    (byte >> (6 - 2 * phase)) & 3
}

// The source's code in a phase.
fn code_for(setting: &[u8; 112], drive: Drive, group: usize, phase: usize) -> u8
    requires { (group < 10) × (phase < 4) × Takes drive }
    ensures { result ≡ code_for drive (codes_of setting.now group) phase }
{
    match drive {
        Drive::Lut(lut) => code_in(setting[10 * lut + group], phase),
        Drive::Fixed(code) => code,
    }
}

pub(crate) fn phase_of(
    setting: &[u8; 112],
    frame_period: &[u64; 16],
    driving: Driving,
    group: usize,
    phase: usize,
) -> Phase
    requires { (group < 10) × (phase < 4) × Drivable driving }
    ensures { result ≡ phase_in driving (timed_group setting.now frame_period.now group) phase }
{
    let source = code_for(setting, driving.drive, group, phase);
    let vcom = code_in(setting[40 + group], phase);
    Phase {
        frames: frames(setting, group, phase),
        frame_ns: frame_ns(setting, frame_period, group),
        millivolts: walk::phases::pixel_millivolts(driving.levels, source, vcom),
    }
}
