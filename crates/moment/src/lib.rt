// Moments, and when BUSY rises and falls (mod.rs, `after`, `ns_between`, `busy_for`, `advance`). A moment is a number of cycles of the
// configuration's time base, and a span a number of nanoseconds.
#![tactic(auto)]

ghost use Rattle.std.specs.Prelude.{◌≡◌};
ghost use Rattle.moment.specs.Moments.{after_ns, ns_between, has_come, lowered, quiet_at, busy_for};

use device::{Bus, part};

// `ns` nanoseconds after a moment.
pub fn after(frequency: u32, moment: u64, ns: u64) -> u64
    ensures { result ≡ after_ns frequency moment ns }
{
    moment.saturating_add(frequency::nanos_to_cycles(frequency, ns))
}

// Nanoseconds from one moment to another, 0 when that is earlier.
pub fn ns_between(frequency: u32, from: u64, to: u64) -> u64
    ensures { result ≡ ns_between frequency from to }
{
    frequency::cycles_to_nanos(frequency, to.saturating_sub(from))
}

// Whether the end of BUSY or of a display has come; there may be none.
fn has_come(until: Option<u64>, moment: u64) -> bool
    ensures { result ≡ has_come until moment }
{
    match until {
        None => false,
        Some(until) => until <= moment,
    }
}

// BUSY falls when its time has come.
pub fn lower_busy(bus: Bus, moment: u64) -> Bus
    ensures { result ≡ lowered bus.busy_until bus moment }
{
    let busy_until = bus.busy_until;
    if has_come(busy_until, moment) {
        return part::set_until(bus, None);
    }
    bus
}

// Whether at a moment no display ends and BUSY does not fall.
pub fn is_quiet(ends: Option<u64>, busy_until: Option<u64>, moment: u64) -> bool
    ensures { result ≡ quiet_at ends busy_until moment }
{
    !has_come(ends, moment) & !has_come(busy_until, moment)
}

// BUSY high for `ns` nanoseconds from a moment on; nothing for 0.
pub fn busy_for(bus: Bus, frequency: u32, moment: u64, ns: u64) -> Bus
    ensures { result ≡ busy_for bus frequency moment ns }
{
    if 0 < ns {
        let until = after(frequency, moment, ns);
        return part::set_until(bus, Some(until));
    }
    bus
}
