// What can be asked of a state without changing it: whether the controller is busy, the level of its BUSY pin, and the next instant at
// which something changes without a call (mod.rs, `is_busy`, `busy_pin` and `next_deadline`).
#![tactic(auto)]

ghost use Rattle.std.specs.Prelude.{◌≡◌};
ghost use Rattle.busy.specs.Busy.{pending, busy_at, pin_at, earlier, deadline_of};

use device::{Power, Ssd1677};

// Whether the instant is before the deadline.
pub fn is_pending(deadline: Option<u64>, time: u64) -> bool
    ensures { result ≡ pending deadline time }
{
    match deadline {
        None => false,
        Some(until) => time < until,
    }
}

// Whether an operation runs at the instant, which is taken as it is given.
pub fn busy(state: Ssd1677, time: u64) -> bool
    ensures { result ≡ busy_at state.bus time }
{
    let bus = state.bus;
    let power = bus.power;
    let busy_until = bus.busy_until;
    match power {
        Power::Running => is_pending(busy_until, time),
        Power::Asleep => true,
        Power::InReset => false,
    }
}

// The level of the BUSY pin: high while busy, unless the configuration inverts it.
pub fn pin(state: Ssd1677, time: u64) -> bool
    ensures { result ≡ pin_at state time }
{
    let config = state.config;
    let is_busy = busy(state, time);
    if config.busy_active_high {
        return is_busy;
    }
    !is_busy
}

fn earlier_of(one: Option<u64>, other: Option<u64>) -> Option<u64>
    ensures { result ≡ earlier one other }
{
    match one {
        None => other,
        Some(a) => match other {
            None => Some(a),
            Some(b) => Some(a.min(b)),
        },
    }
}

// When BUSY falls, or a display ends and its image is published.
pub fn deadline(state: Ssd1677) -> Option<u64>
    ensures { result ≡ deadline_of state }
{
    let bus = state.bus;
    let busy_until = bus.busy_until;
    let end = panel::end_of(state.display);
    earlier_of(end, busy_until)
}
