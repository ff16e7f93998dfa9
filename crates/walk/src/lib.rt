// What a waveform does to a pixel: every group, each repeated, each of four phases, whole or up to a cut.
#![tactic(auto)]

pub mod phases;

ghost use Rattle.std.specs.Prelude.{◌≡◌, ◌/◌, ◌<◌};
ghost use mathlib.Core.List.{foldl};
ghost use Rattle.waveform.specs.Phases.{Timed, driven, phases_in};
ghost use Rattle.waveform.specs.Walks.{Drivable, Walkable, group_in, groups_in, drive_stepped, whole_step, cut_step, phase_cut, cut_of, transfer_of};
ghost use Rattle.walk.specs.Ready.{LastingOf};

use glass::Transfer;
use phases::Lasting;
use waveform::{Drive, DrivenPhase, Driving, Group, Phase, Progress, Waveform};

// ---- whole groups

// A phase to its end; one of 0 frames is passed over.
fn whole_step(driving: Driving, step: DrivenPhase, transfer: Transfer) -> Transfer
    ensures { result ≡ drive_stepped driving step transfer }
{
    let phase = step.phase;
    if phase.frames == 0 {
        return transfer;
    }
    transfer.then(Transfer::shift(step.drive, driving.swing))
}

// The four phases of a group, once. Apart from `cut_pass`, which asks of each phase whether it ends in time: docs/PERFORMANCE says what
// the whole groups of a cut walk gain by that.
fn whole_pass(
    driving: Driving,
    first: DrivenPhase,
    second: DrivenPhase,
    third: DrivenPhase,
    fourth: DrivenPhase,
    transfer: Transfer,
) -> Transfer
    ensures { result ≡ drive_stepped driving fourth (drive_stepped driving third (drive_stepped driving second (drive_stepped driving first transfer))) }
{
    let one = whole_step(driving, first, transfer);
    let two = whole_step(driving, second, one);
    let three = whole_step(driving, third, two);
    whole_step(driving, fourth, three)
}

// `transfer`, then one group with all its repeats.
fn group_transfer(driving: Driving, group: Group, transfer: Transfer) -> Transfer
    requires { Drivable driving }
    ensures { result ≡ foldl (whole_step driving) transfer (group_in driving group) }
{
    let first = phases::step_of(driving, group, 0);
    let second = phases::step_of(driving, group, 1);
    let third = phases::step_of(driving, group, 2);
    let fourth = phases::step_of(driving, group, 3);
    let mut moved = transfer;
    for _ in 0..group.repeats {
        moved = whole_pass(driving, first, second, third, fourth, moved);
    }
    moved
}

// ---- up to a cut

// The frames that end within so many nanoseconds of a phase's start.
fn frames_within(ns: u64, frame_ns: u64) -> u64
    requires { 0 < frame_ns }
    ensures { result ≡ ns / frame_ns }
{
    ns / frame_ns
}

// A phase that the cut falls into, `left` nanoseconds after its start.
fn cut_short(driving: Driving, phase: Phase, left: u64, end: u64, transfer: Transfer) -> Progress
    requires { 0 < phase.frame_ns }
    ensures { result ≡ phase_cut driving phase left end transfer }
{
    let run = frames_within(left, phase.frame_ns);
    let transfer = phases::push(driving, phase, run, transfer);
    Progress {
        transfer,
        elapsed: end,
        stopped: run < phase.frames,
    }
}

fn cut_phase(driving: Driving, until: u64, lasting: Lasting, progress: Progress) -> Progress
    requires { LastingOf driving lasting }
    ensures { result ≡ foldl (cut_step driving until) progress (driven lasting.step.phase) }
{
    if progress.stopped {
        return progress;
    }
    let step = lasting.step;
    let phase = step.phase;
    if phase.frames == 0 {
        return progress;
    }
    let elapsed = progress.elapsed;
    let transfer = progress.transfer;
    let end = elapsed.saturating_add(lasting.length);
    if until < end {
        let left = until.saturating_sub(elapsed);
        return cut_short(driving, phase, left, end, transfer);
    }
    let moved = whole_step(driving, step, transfer);
    Progress {
        transfer: moved,
        elapsed: end,
        stopped: false,
    }
}

// The four phases of a group, once.
fn cut_pass(
    driving: Driving,
    until: u64,
    first: Lasting,
    second: Lasting,
    third: Lasting,
    fourth: Lasting,
    progress: Progress,
) -> Progress
    requires { LastingOf driving first × LastingOf driving second × LastingOf driving third × LastingOf driving fourth }
    ensures { result ≡ foldl (cut_step driving until) progress (phases_in first.step.phase second.step.phase third.step.phase fourth.step.phase) }
{
    if progress.stopped {
        return progress;
    }
    let one = cut_phase(driving, until, first, progress);
    let two = cut_phase(driving, until, second, one);
    let three = cut_phase(driving, until, third, two);
    cut_phase(driving, until, fourth, three)
}

// The repeats of a group, phase by phase.
fn cut_repeats(driving: Driving, until: u64, group: Group, progress: Progress) -> Progress
    requires { (0 < group.frame_ns) × Drivable driving }
    ensures { result ≡ foldl (cut_step driving until) progress (group_in driving group) }
{
    let first = phases::lasting_of(driving, group, 0);
    let second = phases::lasting_of(driving, group, 1);
    let third = phases::lasting_of(driving, group, 2);
    let fourth = phases::lasting_of(driving, group, 3);
    let mut moved = progress;
    for _ in 0..group.repeats {
        moved = cut_pass(driving, until, first, second, third, fourth, moved);
    }
    moved
}

// A group that ends by the cut is walked whole; an end that stopped at 2^64 − 1 does so only by a cut there, which cuts nothing.
fn cut_group(driving: Driving, until: u64, group: Group, progress: Progress) -> Progress
    requires { (0 < group.frame_ns) × Drivable driving }
    ensures { result ≡ foldl (cut_step driving until) progress (group_in driving group) }
{
    if progress.stopped {
        return progress;
    }
    let end = progress.elapsed.saturating_add(duration::group_ns(group));
    if end <= until {
        let transfer = progress.transfer;
        let moved = group_transfer(driving, group, transfer);
        return Progress {
            transfer: moved,
            elapsed: end,
            stopped: false,
        };
    }
    cut_repeats(driving, until, group, progress)
}

fn cut_groups(driving: Driving, until: u64, waveform: Waveform, progress: Progress) -> Progress
    requires { Timed waveform × Drivable driving }
    ensures { result ≡ foldl (cut_step driving until) progress (groups_in driving waveform) }
{
    let mut moved = progress;
    for group in waveform.groups {
        if !phases::idle(group.frames) {
            moved = cut_group(driving, until, group, moved);
        }
    }
    moved
}

// What the frames that end within `until` nanoseconds do to a state from 0 to the swing.
pub fn transfer_cut(
    waveform: Waveform,
    drive: Drive,
    swing: i64,
    positive_drives_black: bool,
    until: u64,
) -> Transfer
    requires { Walkable waveform drive }
    ensures { result ≡ cut_of waveform drive swing positive_drives_black until }
{
    let levels = waveform.levels;
    let driving = Driving {
        levels,
        drive,
        swing,
        positive_drives_black,
    };
    let start = Progress {
        transfer: Transfer::identity(swing),
        elapsed: 0,
        stopped: false,
    };
    let end = cut_groups(driving, until, waveform, start);
    end.transfer
}

// What the display does to a state from 0 to the swing: whole frames only, a frame cut short does nothing.
pub fn transfer(
    waveform: Waveform,
    drive: Drive,
    swing: i64,
    positive_drives_black: bool,
    until: Option<u64>,
) -> Transfer
    requires { Walkable waveform drive }
    ensures { result ≡ transfer_of waveform drive swing positive_drives_black until }
{
    // No phase ends past the last moment: a cut there cuts none.
    let until = until.unwrap_or(u64::MAX);
    transfer_cut(waveform, drive, swing, positive_drives_black, until)
}
