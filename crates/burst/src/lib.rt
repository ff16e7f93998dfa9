// Bytes of RAM data one after the other (mod.rs, `write_data` and `write_ram`). As long as nothing else comes about they change the plane, the
// counter, the clock and the command's count alone, so these go through a loop of their own and the state is put back once: a frame has 48,000.
#![tactic(auto)]

ghost use Rattle.std.specs.Prelude.{is_some, ◌≡◌, ◌-◌};
ghost use Rattle.burst.specs.Running.{reached_in, byte_step, taking, ran, running};
ghost use Rattle.burst.specs.Burst.{course_of, reached_by, into, ran_into, bursted, burstOf};

use device::{Active, Current, Ssd1677, part};
pub use events::Events;
use ram::{Counter, Entry, Window};

mod events;

// The kind of a data event (docs/replay-format.md).
pub const DATA: u8 = 2;

// What bytes of RAM data change of a state.
#[derive(Clone, Copy)]
pub struct Reached {
    pub latest: u64,
    pub counter: Counter,
    // Data bytes of the command.
    pub received: u16,
}

// What they go by: where the counter moves, and when something else comes about.
#[derive(Clone, Copy)]
pub struct Course {
    pub window: Window,
    pub entry: Entry,
    // The end of the display in progress.
    pub ends: Option<u64>,
    pub busy_until: Option<u64>,
}

// Where the bytes end: the place of the first event that is none.
#[derive(Clone, Copy)]
struct Run {
    made: usize,
    reached: Reached,
}

// The same with the state.
#[derive(Clone, Copy)]
pub struct Burst {
    pub made: usize,
    pub state: Ssd1677,
}

// One event, where it is a byte of RAM data and nothing more: how far the bytes have then come.
fn take(
    plane: &mut [u8],
    course: Course,
    reached: Reached,
    kind: u8,
    time: u64,
    byte: u8,
) -> Option<Reached>
    ensures { byte_step (is_some result) (reached_in reached result) plane.new ≡ taking course kind time byte reached plane.old }
{
    let latest = reached.latest.max(time);
    let busy_until = course.busy_until;
    let quiet = moment::is_quiet(course.ends, busy_until, latest);
    if (kind == DATA) & quiet {
        let at = reached.counter;
        if ram::write(plane, at, byte) {
            let window = course.window;
            let entry = course.entry;
            let counter = at.advanced(window, entry);
            let received = reached.received.saturating_add(1);
            return Some(Reached {
                latest,
                counter,
                received,
            });
        }
        return None;
    }
    None
}

// The events from a place on, up to the first that is no such byte.
fn run_on(plane: &mut [u8], course: Course, reached: Reached, events: Events, from: usize) -> Run
    ensures { ran result.made result.reached plane.new ≡ running events.entry.kinds.now events.entry.times.now events.entry.values.now course (events.entry.count - from) from reached plane.old }
{
    let mut next = reached;
    let mut i = from;
    // The place where they end is part of the answer, so it is counted here.
    while i < events.count {
        let kind = events.kinds[i];
        let time = events.times[i];
        let byte = events.values[i];
        let Some(onward) = take(&mut plane[..], course, next, kind, time, byte) else {
            return Run {
                made: i,
                reached: next,
            };
        };
        next = onward;
        i += 1;
    }
    Run {
        made: i,
        reached: next,
    }
}

fn course_of(state: Ssd1677) -> Course
    ensures { result ≡ course_of state }
{
    let regs = state.regs;
    let window = regs.window;
    let entry = regs.entry;
    let bus = state.bus;
    let busy_until = bus.busy_until;
    let ends = panel::end_of(state.display);
    Course {
        window,
        entry,
        ends,
        busy_until,
    }
}

// The state with what the bytes have changed.
fn put_back(state: Ssd1677, active: Active, reached: Reached) -> Ssd1677
    ensures { result ≡ reached_by state active reached }
{
    let mut next = active;
    next.received = reached.received;
    let bus = part::set_current(state.bus, Current::Active(next));
    let moved = part::set_now(state, reached.latest);
    let counter = reached.counter;
    part::set_pointed(moved, counter, bus)
}

// The events from a place on that are RAM data of a command into its plane.
fn run_into(state: Ssd1677, active: Active, plane: &mut [u8], events: Events, from: usize) -> Burst
    ensures { into result.made result.state plane.new ≡ ran_into events.entry.kinds.now events.entry.times.now events.entry.values.now (events.entry.count - from) from state active plane.old }
{
    let course = course_of(state);
    let counter = state.regs.counter;
    let start = Reached {
        latest: state.now,
        counter,
        received: active.received,
    };
    let run = run_on(plane, course, start, events, from);
    let reached = run.reached;
    let after = put_back(state, active, reached);
    Burst {
        made: run.made,
        state: after,
    }
}

// The events from a place on, up to the first that is more than a byte of RAM data: the place of that one, and what the bytes leave.
pub fn write_burst(
    state: Ssd1677,
    black_white: &mut [u8],
    red: &mut [u8],
    events: Events,
    from: usize,
) -> Burst
    ensures { bursted result.made result.state black_white.new red.new ≡ burstOf events.entry.kinds.now events.entry.times.now events.entry.values.now (events.entry.count - from) from state black_white.old red.old state.bus.current }
{
    match state.bus.current {
        Current::Active(active) => {
            if active.kind.bounds().is_some() {
                return Burst { made: from, state };
            }
            if active.command == 0x24 {
                return run_into(state, active, black_white, events, from);
            }
            run_into(state, active, red, events, from)
        }
        Current::Idle => Burst { made: from, state },
        Current::Ignoring => Burst { made: from, state },
    }
}
