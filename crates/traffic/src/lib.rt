// Events made of a device one after the other, up to the first call that is refused: what #102 feeds from a file.
#![tactic(auto)]

ghost use Rattle.std.specs.Prelude.{◌≡◌, true, ◌+◌, ◌-◌, ◌≤◌, ◌<◌, min, is_ok};
ghost use Rattle.guard.specs.Refusals.{refusal_number};
ghost use Rattle.counts.specs.Counts.{picture};
ghost use Rattle.world.specs.World.{world};
ghost use Rattle.burst.specs.Burst.{bursted};
ghost use Rattle.traffic.specs.Traffic.{event_at, shortest, fed, made, feeding, ended, EndsAlike};

use burst::{Burst, DATA, Events};
use device::Ssd1677;
use guard::Refusal;
use guard_lengths::Lengths;

// How events ended: what the last call answered, the state that they leave, and how many of them were made before a refused one.
#[derive(Clone, Copy)]
pub struct Fed {
    pub answer: Result<(), Refusal>,
    pub state: Ssd1677,
    pub made: usize,
}

// RAM data from a place on, which would be accepted a byte a call, made at once: how many events are then made, and the state.
fn stream(
    state: Ssd1677,
    lengths: Lengths,
    black_white: &mut [u8],
    red: &mut [u8],
    events: Events,
    from: usize,
) -> Burst
    requires { from < events.count }
    ensures from_le_made { (from ≤ result.made) × (result.made ≤ events.entry.count) }
    ensures ends_alike { EndsAlike events.entry.kinds.now events.entry.times.now events.entry.values.now events.entry.count lengths (bursted from state black_white.old red.old) (bursted result.made result.state black_white.new red.new) }
{
    let kind = events.kinds[from];
    if kind == DATA {
        if guard::check(state, lengths).is_ok() {
            return burst::write_burst(state, black_white, red, events, from);
        }
    }
    Burst { made: from, state }
}

// The event at a place, where one is left.
fn one(
    state: Ssd1677,
    states: &mut [i64],
    luts: &mut [u8],
    pixels: &mut [u8],
    counts: &mut [u32],
    black_white: &mut [u8],
    red: &mut [u8],
    gates: &[u16],
    log: &mut [u8],
    otp: &[u8],
    events: Events,
    at: usize,
) -> Fed
    requires { at ≤ events.count }
    ensures made_value { is_ok result.answer ≡ true → result.made ≡ min events.entry.count (at + 1) }
    ensures log_after { ended (made otp.now (event_at events.entry.kinds.now events.entry.times.now events.entry.values.now)) events.entry.count (fed (refusal_number result.answer) result.made (world result.state states.new luts.new (picture pixels.new counts.new) black_white.new red.new gates.now log.new)) ≡ feeding (made otp.now (event_at events.entry.kinds.now events.entry.times.now events.entry.values.now)) (events.entry.count - at) at (world state states.old luts.old (picture pixels.old counts.old) black_white.old red.old gates.now log.old) }
{
    if events.count <= at {
        return Fed {
            answer: Ok(()),
            state,
            made: at,
        };
    }
    let event = event::event_of(events.kinds[at], events.times[at], events.values[at]);
    let answer = dispatch::dispatch(
        state,
        &mut states[..],
        &mut luts[..],
        &mut pixels[..],
        &mut counts[..],
        &mut black_white[..],
        &mut red[..],
        gates,
        &mut log[..],
        otp,
        event,
    );
    match answer {
        Ok(reading) => Fed {
            answer: Ok(()),
            state: reading.state,
            made: at + 1,
        },
        Err(refused) => Fed {
            answer: Err(refused.refusal),
            state: refused.state,
            made: at,
        },
    }
}

// The RAM data at a place, and the event after them.
fn turn(
    state: Ssd1677,
    states: &mut [i64],
    luts: &mut [u8],
    pixels: &mut [u8],
    counts: &mut [u32],
    black_white: &mut [u8],
    red: &mut [u8],
    gates: &[u16],
    log: &mut [u8],
    otp: &[u8],
    events: Events,
    from: usize,
) -> Fed
    requires { from < events.count }
    ensures from_lt_made { is_ok result.answer ≡ true → (from < result.made) × (result.made ≤ events.entry.count) }
    ensures log_after { ended (made otp.now (event_at events.entry.kinds.now events.entry.times.now events.entry.values.now)) events.entry.count (fed (refusal_number result.answer) result.made (world result.state states.new luts.new (picture pixels.new counts.new) black_white.new red.new gates.now log.new)) ≡ feeding (made otp.now (event_at events.entry.kinds.now events.entry.times.now events.entry.values.now)) (events.entry.count - from) from (world state states.old luts.old (picture pixels.old counts.old) black_white.old red.old gates.now log.old) }
{
    let lengths = guard_lengths::planes_log_lent(
        states.len(),
        luts.len(),
        pixels.len(),
        counts.len(),
        log.len(),
        black_white.len(),
        red.len(),
    );
    let run = stream(
        state,
        lengths,
        &mut black_white[..],
        &mut red[..],
        events,
        from,
    );
    let at = run.made;
    let present = run.state;
    one(
        present,
        states,
        luts,
        pixels,
        counts,
        black_white,
        red,
        gates,
        log,
        otp,
        events,
        at,
    )
}

// Events by their kinds, times and values, as many as all three have.
pub fn feed(
    state: Ssd1677,
    states: &mut [i64],
    luts: &mut [u8],
    pixels: &mut [u8],
    counts: &mut [u32],
    black_white: &mut [u8],
    red: &mut [u8],
    gates: &[u16],
    log: &mut [u8],
    otp: &[u8],
    kinds: &[u8],
    times: &[u64],
    values: &[u8],
) -> Fed
    ensures { fed (refusal_number result.answer) result.made (world result.state states.new luts.new (picture pixels.new counts.new) black_white.new red.new gates.now log.new) ≡ feeding (made otp.now (event_at kinds.now times.now values.now)) (shortest kinds.now times.now values.now) 0 (world state states.old luts.old (picture pixels.old counts.old) black_white.old red.old gates.now log.old) }
{
    let count = kinds.len().min(times.len().min(values.len()));
    let events = Events {
        kinds,
        times,
        values,
        count,
    };
    let mut next = state;
    let mut i: usize = 0;
    // By as many places as a turn has made: RAM data are one turn, however many bytes they are.
    while i < count {
        let fed = turn(
            next,
            &mut states[..],
            &mut luts[..],
            &mut pixels[..],
            &mut counts[..],
            &mut black_white[..],
            &mut red[..],
            gates,
            &mut log[..],
            otp,
            events,
            i,
        );
        if fed.answer.is_err() {
            return fed;
        }
        next = fed.state;
        i = fed.made;
    }
    Fed {
        answer: Ok(()),
        state: next,
        made: i,
    }
}
