// What a parameter byte does once the clock has moved (mod.rs, `parameter`).
//
// A register's byte is stored; 0x10, 0x14, 0x15, 0x46 and 0x47 act at once. A value that the datasheet does not list is reported (30).
#![tactic(auto)]

ghost use Rattle.std.specs.Prelude.{◌≡◌, length};
ghost use Rattle.world.specs.World.{with_log, with_ram};
ghost use Rattle.listed.specs.Listed.{listed};
ghost use Rattle.acts.specs.Reserved.{checked};
ghost use Rattle.parameter.specs.Parameter.{register_taken, writing, auto_taken, parameter_taken};

use device::{Ssd1677, part};
use diagnostic::Log;

// 30 unless the byte is listed, by the registers as they are.
fn check_listed(state: Ssd1677, log: &mut Log, command: u8, index: u16, byte: u8) -> Ssd1677
    ensures { with_log result log.new ≡ checked (listed state.regs command index byte) command byte (with_log state log.old) }
{
    let is_listed = listed::is_listed(state.regs, command, index, byte);
    acts::check(state, log, command, byte, is_listed)
}

// A register's byte is stored whether or not it is listed.
fn register_byte(state: Ssd1677, log: &mut Log, command: u8, index: u16, byte: u8) -> Ssd1677
    ensures { with_log result log.new ≡ register_taken command index byte (with_log state log.old) }
{
    let regs = store::store(state.regs, command, index, byte);
    let stored = part::set_regs(state, regs);
    check_listed(stored, log, command, index, byte)
}

// BUSY high for the time of an auto write.
fn busy_writing(state: Ssd1677) -> Ssd1677
    ensures { result ≡ writing state }
{
    let config = state.config;
    let timing = config.timing;
    acts::busy_for(state, timing.auto_write)
}

// 0x46 writes the red plane whole, 0x47 the black-white one.
fn auto_write(
    state: Ssd1677,
    black_white: &mut [u8],
    red: &mut [u8],
    log: &mut Log,
    command: u8,
    byte: u8,
) -> Ssd1677
    ensures { with_ram result black_white.new red.new log.new ≡ auto_taken command byte (with_ram state black_white.old red.old log.old) }
{
    if command == 0x46 {
        auto_write::auto_write(red, byte);
        let noted = check_listed(state, log, command, 0, byte);
        return busy_writing(noted);
    }
    auto_write::auto_write(black_white, byte);
    let noted = check_listed(state, log, command, 0, byte);
    busy_writing(noted)
}

// Parameter byte `index` of `command`.
pub fn parameter(
    state: Ssd1677,
    black_white: &mut [u8],
    red: &mut [u8],
    log: &mut Log,
    command: u8,
    index: u16,
    byte: u8,
) -> Ssd1677
    ensures { with_ram result black_white.new red.new log.new ≡ parameter_taken command index byte (with_ram state black_white.old red.old log.old) }
{
    match command {
        0x10 => deep_sleep::deep_sleep(state, black_white, red, log, byte),
        0x14 => detection::hv_ready_detection(state, log, byte),
        0x15 => detection::vci_detection(state, log, byte),
        0x46 => auto_write(state, black_white, red, log, 0x46, byte),
        0x47 => auto_write(state, black_white, red, log, 0x47, byte),
        _ => register_byte(state, log, command, index, byte),
    }
}
