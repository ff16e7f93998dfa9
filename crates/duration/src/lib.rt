// How long a display runs (waveform.rs, `duration_ns`).
#![tactic(auto)]

ghost use Rattle.std.specs.Prelude.{◌≡◌, ◌+◌, ◌<◌, min};
ghost use Rattle.numbers.specs.Saturation.{largest};
ghost use Rattle.waveform.specs.Duration.{group_ns, duration_of, frames_of};

use waveform::{Group, Waveform};

// The frames of the four phases.
fn frames(group: Group) -> u64
    ensures { result ≡ frames_of group }
{
    let [first, second, third, fourth] = group.frames;
    u64::from(first) + u64::from(second) + u64::from(third) + u64::from(fourth)
}

// Every frame of a group's repeats.
pub fn group_ns(group: Group) -> u64
    ensures { result ≡ min (group_ns group) (largest 64) }
{
    let runs = frames(group).saturating_mul(u64::from(group.repeats));
    runs.saturating_mul(group.frame_ns)
}

// Every frame of every phase of every repeat.
pub fn duration_ns(waveform: Waveform) -> u64
    ensures { result ≡ duration_of waveform }
{
    let mut total: u64 = 0;
    for group in waveform.groups {
        total = total.saturating_add(group_ns(group));
    }
    total
}
