// A data byte, once the clock has moved (mod.rs, `write_data` and `write_ram`).
#![tactic(auto)]

ghost use Rattle.std.specs.Prelude.{◌≡◌, true, false, List, ℕ, eqb, is_some};
ghost use Rattle.device.specs.declared.Current.TheVariants as current;
ghost use Rattle.numbers.specs.Choice.{pick};
ghost use Rattle.ram.specs.Plane.{plane_of, wrote_at, written_at};
ghost use Rattle.diagnostic.specs.declared.DiagnosticKind.TheVariants.{ExtraData};
ghost use Rattle.chip.specs.Report.{logged};
ghost use Rattle.world.specs.World.{with_log, with_ram, on, device_in_ram, log_in_ram};
ghost use Rattle.data.specs.Stream.{left_by, is_streamed, streamed};
ghost use Rattle.data.specs.Data.{one_byte_more, current_set, writing_on, surplus, at_most, counter_stepped, out_of_range, plane_for, unasked, data_taken};

use device::{Active, Bus, Current, Power, Ssd1677, part};
use diagnostic::{DiagnosticKind, Log};
use ram::Counter;

// What a byte of RAM data that its plane has taken leaves.
#[derive(Clone, Copy)]
pub struct Streamed {
    pub counter: Counter,
    pub bus: Bus,
}

// The command with one byte more, and what it has reported.
fn count(active: Active, extra: bool, range: bool) -> Active
    ensures { result ≡ one_byte_more active extra range }
{
    Active {
        received: active.received.saturating_add(1),
        extra_reported: extra,
        range_reported: range,
        ..active
    }
}

// The command is the current one.
pub fn go_on(state: Ssd1677, active: Active) -> Ssd1677
    ensures { result ≡ current_set (current.Active active) state }
{
    let bus = part::set_current(state.bus, Current::Active(active));
    part::set_bus(state, bus)
}

// 25, unless the command has reported it.
fn report_extra(state: Ssd1677, log: &mut Log, active: Active) -> Ssd1677
    ensures { with_log result log.new ≡ pick active.extra_reported (with_log state log.old) (logged (ExtraData active.command) (with_log state log.old)) }
{
    if active.extra_reported {
        return state;
    }
    let command = active.command;
    chip::report(state, log, DiagnosticKind::ExtraData { command })
}

// More bytes than the command takes, whatever the planes.
fn take_surplus(state: Ssd1677, log: &mut Log, active: Active) -> Ssd1677
    ensures { (b d : List ℕ) → with_ram result b d log.new ≡ surplus active (with_ram state b d log.old) }
{
    let noted = report_extra(state, log, active);
    go_on(noted, count(active, true, active.range_reported))
}

// A byte of a command that takes `most` at most.
fn up_to(
    state: Ssd1677,
    black_white: &mut [u8],
    red: &mut [u8],
    log: &mut Log,
    active: Active,
    most: u16,
    byte: u8,
) -> Ssd1677
    ensures { with_ram result black_white.new red.new log.new ≡ at_most most byte active (with_ram state black_white.old red.old log.old) }
{
    let index = active.received;
    if index < most {
        let command = active.command;
        let taken = parameter::parameter(state, black_white, red, log, command, index, byte);
        let next = count(active, active.extra_reported, active.range_reported);
        return go_on(taken, next);
    }
    take_surplus(state, log, active)
}

// The counter steps, by the window and the data-entry mode.
pub fn step(state: Ssd1677) -> Ssd1677
    ensures { result ≡ counter_stepped state }
{
    let regs = state.regs;
    let counter = regs.counter.advanced(regs.window, regs.entry);
    part::set_regs(state, part::set_counter(regs, counter))
}

// 31, unless the command has reported it.
pub fn report_range(state: Ssd1677, log: &mut Log, active: Active) -> Ssd1677
    ensures { with_log result log.new ≡ out_of_range active (with_log state log.old) }
{
    if active.range_reported {
        return state;
    }
    let command = active.command;
    let at = state.regs.counter;
    chip::report(
        state,
        log,
        DiagnosticKind::RamOutOfRange {
            command,
            x: at.x,
            y: at.y,
        },
    )
}

// Past the RAM the counter steps all the same.
fn step_outside(state: Ssd1677, log: &mut Log, active: Active) -> Ssd1677
    ensures { (b d : List ℕ) → with_ram result b d log.new ≡ writing_on active active.extra_reported true (on device_in_ram counter_stepped (on log_in_ram (out_of_range active) (with_ram state b d log.old))) }
{
    let noted = report_range(state, log, active);
    let moved = step(noted);
    go_on(moved, count(active, active.extra_reported, true))
}

// A data byte of 0x24 or 0x26, at the counter; whether the plane has the counter's byte.
fn put(black_white: &mut [u8], red: &mut [u8], command: u8, at: Counter, byte: u8) -> bool
    ensures value { result ≡ wrote_at (plane_of black_white.old red.old (plane_for command)) at }
    ensures black_white_after { black_white.new ≡ pick (eqb command 0x24) (written_at black_white.old at byte) black_white.old }
    ensures red_after { red.new ≡ pick (eqb command 0x24) red.old (written_at red.old at byte) }
{
    if command == 0x24 {
        return ram::write(black_white, at, byte);
    }
    ram::write(red, at, byte)
}

// 24 for a byte with no command before it, of a chip that runs, whatever the planes.
fn report_unasked(state: Ssd1677, log: &mut Log, byte: u8) -> Ssd1677
    ensures { (b d : List ℕ) → with_ram result b d log.new ≡ unasked byte (with_ram state b d log.old) state.bus.power }
{
    let old = state.bus;
    let power = old.power;
    match power {
        Power::Running => chip::report(
            state,
            log,
            DiagnosticKind::DataWithoutCommand { data: byte },
        ),
        Power::Asleep => state,
        Power::InReset => state,
    }
}

// No command is current, and later bytes are ignored.
fn take_unasked(state: Ssd1677, log: &mut Log, byte: u8) -> Ssd1677
    ensures { (b d : List ℕ) → with_ram result b d log.new ≡ data_taken byte (with_ram state b d log.old) current.Idle }
{
    let noted = report_unasked(state, log, byte);
    let bus = part::set_current(noted.bus, Current::Ignoring);
    part::set_bus(noted, bus)
}

// A byte of RAM data that its plane takes, which leaves the state as it is but for the counter and the bus; another byte leaves all.
// A frame is 48,000 of them, so what they change comes back by itself and the state is read alone: each function that hands it back by value may copy it.
pub fn stream(state: Ssd1677, black_white: &mut [u8], red: &mut [u8], byte: u8) -> Option<Streamed>
    ensures done_value { is_some result ≡ is_streamed state black_white.old red.old state.bus.current }
    ensures by_index { (l : List ℕ) → with_ram (left_by state result) black_white.new red.new l ≡ streamed byte (with_ram state black_white.old red.old l) state.bus.current }
{
    let at = state.regs.counter;
    let bus = state.bus;
    match bus.current {
        Current::Active(active) => {
            if active.kind.bounds().is_some() {
                return None;
            }
            if put(black_white, red, active.command, at, byte) {
                let counter = at.advanced(state.regs.window, state.regs.entry);
                let next = count(active, active.extra_reported, active.range_reported);
                let bus = part::set_current(bus, Current::Active(next));
                return Some(Streamed { counter, bus });
            }
            None
        }
        Current::Idle => None,
        Current::Ignoring => None,
    }
}

// A byte that `stream` has not done: by what is current and by the kind of its command.
pub fn write_other(
    state: Ssd1677,
    black_white: &mut [u8],
    red: &mut [u8],
    log: &mut Log,
    byte: u8,
) -> Ssd1677
    requires current_value { is_streamed state black_white.old red.old state.bus.current ≡ false }
    ensures { with_ram result black_white.new red.new log.new ≡ data_taken byte (with_ram state black_white.old red.old log.old) state.bus.current }
{
    match state.bus.current {
        Current::Active(active) => match active.kind.bounds() {
            Some(bounds) => up_to(state, black_white, red, log, active, bounds.most, byte),
            None => step_outside(state, log, active),
        },
        Current::Idle => take_unasked(state, log, byte),
        Current::Ignoring => state,
    }
}

// A byte with D/C# high, written by the MCU.
pub fn write(
    state: Ssd1677,
    black_white: &mut [u8],
    red: &mut [u8],
    log: &mut Log,
    byte: u8,
) -> Ssd1677
    ensures { with_ram result black_white.new red.new log.new ≡ data_taken byte (with_ram state black_white.old red.old log.old) state.bus.current }
{
    match stream(state, black_white, red, byte) {
        Some(step) => part::set_pointed(state, step.counter, step.bus),
        None => write_other(state, black_white, red, log, byte),
    }
}
