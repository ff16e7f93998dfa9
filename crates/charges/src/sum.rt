// The signed sum of drive over a whole waveform, in millivolts × nanoseconds: before the panel's sign, and held to nothing.
// With periods up to 100,000,000 ns no product and no sum leaves 64 bits, so each is plain arithmetic.
ghost use Rattle.std.specs.Prelude.{◌≡◌, false, ◌≤◌, ◌<◌, pos, nat_abs, ◌*ℤ◌};
ghost use Rattle.waveform.specs.declared.Drive.TheVariants.{Lut};
ghost use Rattle.waveform.specs.Exact.{frames_drive};
ghost use Rattle.waveform.specs.Phases.{driven, phases_of};
ghost use Rattle.waveform.specs.Walks.{Drivable, phase_in, four_in, group_in};
ghost use Rattle.charges.specs.Charge.{drive_sum, BoundedPhase, BoundedGroup, BoundedWaveform};

use waveform::{Drive, Driving, Group, Phase, Waveform};

// Millivolts × frames × period.
fn phase_drive(phase: Phase) -> i64
    requires { BoundedPhase phase }
    ensures { result ≡ frames_drive false phase phase.frames }
{
    let frames = phase.frames as i64;
    let period = phase.frame_ns as i64;
    phase.millivolts * frames * period
}

// Phase `at` of a group; one of 0 frames adds 0.
fn drive_at(driving: Driving, group: Group, at: usize) -> i64
    requires at { at < 4 }
    requires drivable { Drivable driving }
    requires bounded { BoundedGroup group }
    ensures { result ≡ drive_sum (driven (phase_in driving group at)) }
{
    phase_drive(walk::phases::phase_of(driving, group, at))
}

// The four phases of a group, once.
fn pass_charge(driving: Driving, group: Group) -> i64
    requires drivable { Drivable driving }
    requires bounded { BoundedGroup group }
    ensures { result ≡ drive_sum (four_in driving group) }
{
    let mut sum: i64 = 0;
    for phase in 0..4 {
        sum += drive_at(driving, group, phase);
    }
    sum
}

// A pass with its repeats. No pass is further from 0 than 4 × 34,000 mV × 255 frames × 100,000,000 ns.
fn repeated(pass: i64, repeats: u16) -> i64
    requires pass { nat_abs pass ≤ 3468000000000000 }
    requires repeats { repeats ≤ 256 }
    ensures { result ≡ pass *ℤ pos repeats }
{
    pass * repeats as i64
}

// A group with its repeats.
fn group_charge(driving: Driving, group: Group) -> i64
    requires drivable { Drivable driving }
    requires bounded { BoundedGroup group }
    ensures { result ≡ drive_sum (group_in driving group) }
{
    let pass = pass_charge(driving, group);
    repeated(pass, group.repeats)
}

// All ten groups of a LUT.
pub(crate) fn charge_of(waveform: Waveform, lut: usize) -> i64
    requires lut { lut < 4 }
    requires bounded { BoundedWaveform waveform }
    ensures { result ≡ drive_sum (phases_of waveform (Lut lut)) }
{
    let levels = waveform.levels;
    // A phase is made without the swing and the panel's sign, whatever they are.
    let driving = Driving {
        levels,
        drive: Drive::Lut(lut),
        swing: 0,
        positive_drives_black: false,
    };
    let mut sum: i64 = 0;
    for group in waveform.groups {
        sum += group_charge(driving, group);
    }
    sum
}
