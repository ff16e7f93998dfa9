// The phases of a group as they drive a pixel, and what some frames of one do to a transfer.
ghost use Rattle.std.specs.Prelude.{◌≡◌, ◌<◌, ◌-ℤ◌};
ghost use Rattle.waveform.specs.Voltages.{AllListable, source_level, vcom_swing};
ghost use Rattle.waveform.specs.Phases.{Takes, code_for};
ghost use Rattle.waveform.specs.Walks.{Drivable, phase_in, saturated_drive, phase_step, pushed};
ghost use Rattle.walk.specs.Ready.{LastingOf, no_frames};

use glass::Transfer;
use waveform::{Drive, DrivenPhase, Driving, Group, Levels, Phase};

// A phase with its drive and how long it lasts, in 64 bits: both made once for all repeats of its group.
#[derive(Clone, Copy)]
pub(crate) struct Lasting {
    pub step: DrivenPhase,
    pub length: u64,
}

// A group without frames moves nothing, so its phases need not be made.
pub fn idle(frames: [u8; 4]) -> bool
    ensures { result ≡ no_frames frames }
{
    (frames[0] == 0) & (frames[1] == 0) & (frames[2] == 0) & (frames[3] == 0)
}

// The source's code in a phase. A group's codes go in by themselves: a whole group would be copied for one byte.
fn code_for(drive: Drive, codes: [u8; 20], phase: usize) -> u8
    requires { (phase < 4) × Takes drive }
    ensures { result ≡ code_for drive codes phase }
{
    match drive {
        Drive::Lut(lut) => codes[4 * lut + phase],
        Drive::Fixed(code) => code,
    }
}

// What a pixel sees: a source's level against VCOM's, each by its code.
pub fn pixel_millivolts(levels: Levels, source: u8, vcom: u8) -> i64
    requires { AllListable levels }
    ensures { result ≡ source_level levels source -ℤ vcom_swing levels vcom }
{
    levels.source(source) - levels.vcom_swing(vcom)
}

pub fn phase_of(driving: Driving, group: Group, phase: usize) -> Phase
    requires { (phase < 4) × Drivable driving }
    ensures { result ≡ phase_in driving group phase }
{
    let codes = group.codes;
    let source = code_for(driving.drive, codes, phase);
    Phase {
        frames: u64::from(group.frames[phase]),
        frame_ns: group.frame_ns,
        millivolts: pixel_millivolts(driving.levels, source, codes[16 + phase]),
    }
}

// The drive of `run` frames in mV × ns, towards white: far below 2^63 for any period under a minute.
fn drive_of(positive_drives_black: bool, millivolts: i64, run: u64, frame_ns: u64) -> i64
    ensures { result ≡ saturated_drive positive_drives_black millivolts run frame_ns }
{
    let frames = numbers::to_i64(run);
    let period = numbers::to_i64(frame_ns);
    let amount = numbers::saturating_mul_i64(
        numbers::saturating_mul_i64(millivolts, frames),
        period,
    );
    if positive_drives_black {
        numbers::saturating_neg_i64(amount)
    } else {
        amount
    }
}

// A phase of a group, with its drive.
pub(crate) fn step_of(driving: Driving, group: Group, at: usize) -> DrivenPhase
    requires { (at < 4) × Drivable driving }
    ensures { result ≡ phase_step driving (phase_in driving group at) }
{
    let phase = phase_of(driving, group, at);
    if phase.frames == 0 {
        return DrivenPhase { phase, drive: 0 };
    }
    let black = driving.positive_drives_black;
    let drive = drive_of(black, phase.millivolts, phase.frames, phase.frame_ns);
    DrivenPhase { phase, drive }
}

pub(crate) fn lasting_of(driving: Driving, group: Group, at: usize) -> Lasting
    requires { (at < 4) × (0 < group.frame_ns) × Drivable driving }
    ensures { (result.step.phase ≡ phase_in driving group at) × LastingOf driving result }
{
    let step = step_of(driving, group, at);
    let phase = step.phase;
    let length = phase.frames.saturating_mul(phase.frame_ns);
    Lasting { step, length }
}

// A transfer, then `run` frames of a phase.
pub fn push(driving: Driving, phase: Phase, run: u64, transfer: Transfer) -> Transfer
    ensures { result ≡ pushed driving phase run transfer }
{
    let black = driving.positive_drives_black;
    let drive = drive_of(black, phase.millivolts, run, phase.frame_ns);
    let shift = Transfer::shift(drive, driving.swing);
    transfer.then(shift)
}
