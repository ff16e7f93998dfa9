// What the display of a setting does to a state, a whole one with each group's transfer worked out once and combined with
// itself (#110).
#![tactic(auto)]

mod groups;

ghost use Rattle.std.specs.Prelude.{◌≡◌, ◌<◌, pos, ◌≤ℤ◌};
ghost use mathlib.Core.List.{foldl};
ghost use Rattle.numbers.specs.Choice.{pick};
ghost use Rattle.glass.specs.Transfers.{identity_t};
ghost use Rattle.waveform.specs.Setting.{waveform_of};
ghost use Rattle.waveform.specs.Walks.{Drivable, Walkable, phase_in, four_in, group_in, whole_step, whole_of, transfer_of};
ghost use Rattle.combine.specs.Acts.{Repeated, Extends, Combinable};
ghost use Rattle.combine.specs.Groups.{timed_group};
ghost use Rattle.combine.specs.Settled.{Alike, settled, combined_of};

use glass::Transfer;
use waveform::{Drive, Driving, Levels};

// `from`, then `pass` so many times. `power` is `pass` once, twice, four times and so on, while the count is halved.
fn repeated(from: Transfer, pass: Transfer, times: u16) -> Transfer
    ensures { Repeated from pass times result }
{
    if times == 0 {
        return from;
    }
    let mut done = from;
    let mut power = pass;
    let mut left = times;
    while 1 < left {
        if left % 2 == 1 {
            done = done.then(power);
        }
        power = power.then(power);
        left = left / 2;
    }
    done.then(power)
}

// `transfer`, then a phase of a group to its end.
fn then_phase(
    setting: &[u8; 112],
    frame_period: &[u64; 16],
    driving: Driving,
    group: usize,
    at: usize,
    transfer: Transfer,
) -> Transfer
    requires { (group < 10) × (at < 4) × Drivable driving }
    ensures { result ≡ whole_step driving transfer (phase_in driving (timed_group setting.now frame_period.now group) at) }
{
    let phase = groups::phase_of(setting, frame_period, driving, group, at);
    walk::phases::push(driving, phase, phase.frames, transfer)
}

// `transfer`, then the four phases of a group, once; one of 0 frames is passed over. A loop, and below one call of it: a function
// with one caller is inlined there, so that a transfer stays in registers.
fn pass(
    setting: &[u8; 112],
    frame_period: &[u64; 16],
    driving: Driving,
    group: usize,
    transfer: Transfer,
) -> Transfer
    requires { (group < 10) × Drivable driving }
    ensures { result ≡ foldl (whole_step driving) transfer (four_in driving (timed_group setting.now frame_period.now group)) }
{
    let mut moved = transfer;
    for at in 0..4 {
        if groups::frames(setting, group, at) != 0 {
            moved = then_phase(setting, frame_period, driving, group, at, moved);
        }
    }
    moved
}

// A group that runs once goes on from `transfer`; what is to be repeated begins with no drive.
fn start(once: bool, transfer: Transfer, swing: i64) -> Transfer
    ensures { result ≡ pick once transfer (identity_t swing) }
{
    if once {
        return transfer;
    }
    Transfer::identity(swing)
}

// `transfer`, then a group with all its repeats.
fn group_combined(
    setting: &[u8; 112],
    frame_period: &[u64; 16],
    driving: Driving,
    group: usize,
    transfer: Transfer,
) -> Transfer
    requires { (group < 10) × Combinable driving }
    ensures { Extends driving (group_in driving (timed_group setting.now frame_period.now group)) transfer result }
{
    let repeats = setting::repeats(setting, group);
    let once = repeats == 1;
    let start = start(once, transfer, driving.swing);
    let passed = pass(setting, frame_period, driving, group, start);
    if once {
        return passed;
    }
    repeated(transfer, passed, repeats)
}

// A transfer whose ends have met takes every state to one, so that what it adds no longer counts.
fn settle(transfer: Transfer) -> Transfer
    ensures { result ≡ settled transfer }
{
    if transfer.hi <= transfer.lo {
        return Transfer {
            add: 0,
            lo: transfer.lo,
            hi: transfer.hi,
        };
    }
    transfer
}

// What the whole display does to a state: to every number what the walk does.
pub fn transfer_whole(
    setting: &[u8; 112],
    frame_period: &[u64; 16],
    drive: Drive,
    swing: i64,
    positive_drives_black: bool,
) -> Transfer
    requires { Walkable (waveform_of setting.now frame_period.now) drive × (pos 1 ≤ℤ swing) }
    ensures value { result ≡ settled (whole_of (waveform_of setting.now frame_period.now) drive swing positive_drives_black) }
    ensures alike { Alike result (whole_of (waveform_of setting.now frame_period.now) drive swing positive_drives_black) }
{
    let levels = Levels::from_setting(setting);
    let driving = Driving {
        levels,
        drive,
        swing,
        positive_drives_black,
    };
    let mut moved = Transfer::identity(swing);
    // By their numbers: a group's bytes lie in seven places of the setting.
    for k in 0..10 {
        if !walk::phases::idle(setting::frames(setting, k)) {
            moved = group_combined(setting, frame_period, driving, k, moved);
        }
    }
    settle(moved)
}

// What the display does to a state: the whole of it combined, or walked up to a cut.
pub fn transfer(
    setting: &[u8; 112],
    frame_period: &[u64; 16],
    drive: Drive,
    swing: i64,
    positive_drives_black: bool,
    until: Option<u64>,
) -> Transfer
    requires { Walkable (waveform_of setting.now frame_period.now) drive × (pos 1 ≤ℤ swing) }
    ensures value { result ≡ combined_of (waveform_of setting.now frame_period.now) drive swing positive_drives_black until }
    ensures alike { Alike result (transfer_of (waveform_of setting.now frame_period.now) drive swing positive_drives_black until) }
{
    match until {
        None => { transfer_whole(setting, frame_period, drive, swing, positive_drives_black) }
        Some(cut) => {
            let decoded = setting::from_setting(setting, frame_period);
            walk::transfer_cut(decoded, drive, swing, positive_drives_black, cut)
        }
    }
}
