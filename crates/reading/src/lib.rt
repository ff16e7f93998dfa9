// A byte that the MCU reads, once the clock has moved (mod.rs, `read_data` and `read_byte`).
#![tactic(auto)]

ghost use Rattle.std.specs.Prelude.{◌≡◌, List, ℕ};
ghost use Rattle.ram.specs.Plane.{plane_of, read_at};
ghost use Rattle.world.specs.World.{with_log};
ghost use Rattle.reading.specs.Reading.{with_byte, one_read_more, nothing_read, register_read, chosen, ram_found, ram_read, byte_read, by_current, read_taken};

use device::{Active, Current, Kind, Power, Ssd1677};
use diagnostic::{DiagnosticKind, Log};

// The state that a read leaves, and the byte: none when the chip drives nothing.
#[derive(Clone, Copy)]
pub struct Reading {
    pub state: Ssd1677,
    pub byte: Option<u8>,
}

// The command with one read more, and what it has reported.
fn count(active: Active, range: bool, nothing: bool) -> Active
    ensures { result ≡ one_read_more active range nothing }
{
    Active {
        read: active.read.saturating_add(1),
        range_reported: range,
        nothing_reported: nothing,
        ..active
    }
}

// 38, unless the command has reported it; nothing is driven.
fn read_nothing(state: Ssd1677, log: &mut Log, active: Active) -> Reading
    ensures { with_byte (with_log result.state log.new) result.byte ≡ nothing_read active (with_log state log.old) }
{
    let next = count(active, active.range_reported, true);
    let byte = None;
    if active.nothing_reported {
        let state = data::go_on(state, next);
        return Reading { state, byte };
    }
    let command = active.command;
    let noted = chip::report(state, log, DiagnosticKind::NothingToRead { command });
    let state = data::go_on(noted, next);
    Reading { state, byte }
}

// 0x1B, 0x2D, 0x2E and 0x2F.
fn read_register(state: Ssd1677, active: Active) -> Reading
    ensures { (log : List ℕ) → with_byte (with_log result.state log) result.byte ≡ register_read active (with_log state log) }
{
    let busy = busy::busy(state, state.now);
    let command = active.command;
    let index = active.read;
    let byte = read_register::read_register(state.regs, state.status, busy, command, index);
    let next = count(active, active.range_reported, active.nothing_reported);
    let state = data::go_on(state, next);
    Reading { state, byte }
}

// What the RAM has at the counter, which steps in either case.
fn found(state: Ssd1677, log: &mut Log, active: Active, byte: Option<u8>) -> Reading
    ensures { with_byte (with_log result.state log.new) result.byte ≡ ram_found active (with_log state log.old) byte }
{
    let nothing = active.nothing_reported;
    match byte {
        Some(value) => {
            let moved = data::step(state);
            let next = count(active, active.range_reported, nothing);
            let state = data::go_on(moved, next);
            let byte = Some(value);
            Reading { state, byte }
        }
        None => {
            let noted = data::report_range(state, log, active);
            let moved = data::step(noted);
            let next = count(active, true, nothing);
            let state = data::go_on(moved, next);
            let byte = None;
            Reading { state, byte }
        }
    }
}

// The RAM at the counter, of the plane that 0x41 chose.
fn ram_byte(state: Ssd1677, black_white: &[u8], red: &[u8]) -> Option<u8>
    ensures { result ≡ read_at (plane_of black_white.now red.now (chosen state)) state.regs.counter }
{
    let at = state.regs.counter;
    if state.regs.read_ram_red {
        return ram::read(red, at);
    }
    ram::read(black_white, at)
}

// 0x27: a dummy byte first, then the RAM at the counter ("Address pointers will advance accordingly", Table 7-1; §8.5 says otherwise).
fn read_ram(
    state: Ssd1677,
    black_white: &[u8],
    red: &[u8],
    log: &mut Log,
    active: Active,
) -> Reading
    ensures { with_byte (with_log result.state log.new) result.byte ≡ ram_read black_white.now red.now active (with_log state log.old) }
{
    if active.read == 0 {
        let next = count(active, active.range_reported, active.nothing_reported);
        let state = data::go_on(state, next);
        let byte = Some(0x00);
        return Reading { state, byte };
    }
    let byte = ram_byte(state, black_white, red);
    found(state, log, active, byte)
}

// A read command's byte.
fn read_byte(
    state: Ssd1677,
    black_white: &[u8],
    red: &[u8],
    log: &mut Log,
    active: Active,
) -> Reading
    ensures { with_byte (with_log result.state log.new) result.byte ≡ byte_read black_white.now red.now active (with_log state log.old) }
{
    if active.command == 0x27 {
        return read_ram(state, black_white, red, log, active);
    }
    read_register(state, active)
}

// By the command that the byte belongs to.
fn of_current(state: Ssd1677, black_white: &[u8], red: &[u8], log: &mut Log) -> Reading
    ensures { with_byte (with_log result.state log.new) result.byte ≡ by_current black_white.now red.now (with_log state log.old) state.bus.current }
{
    let byte = None;
    match state.bus.current {
        Current::Active(active) => match active.kind {
            Kind::Read => read_byte(state, black_white, red, log, active),
            Kind::Write(_) => read_nothing(state, log, active),
            Kind::Unsupported => read_nothing(state, log, active),
            Kind::Reserved => read_nothing(state, log, active),
        },
        Current::Idle => Reading { state, byte },
        Current::Ignoring => Reading { state, byte },
    }
}

// A byte with D/C# high, read by the MCU; none asleep, in reset, or with no active command.
pub fn read(state: Ssd1677, black_white: &[u8], red: &[u8], log: &mut Log) -> Reading
    ensures { with_byte (with_log result.state log.new) result.byte ≡ read_taken black_white.now red.now (with_log state log.old) state.bus.power }
{
    let byte = None;
    match state.bus.power {
        Power::Running => of_current(state, black_white, red, log),
        Power::Asleep => Reading { state, byte },
        Power::InReset => Reading { state, byte },
    }
}
