// 0x10 (mod.rs, `deep_sleep`; datasheet Table 7-1).
#![tactic(auto)]

ghost use Rattle.std.specs.Prelude.{◌≡◌, ◌%◌, length};
ghost use Rattle.world.specs.World.{with_ram};
ghost use Rattle.acts.specs.Acts.{asleep, slept};

use device::{Bus, Power, Ssd1677, part};
use diagnostic::Log;

// Asleep: the supplies are off, and BUSY has no end.
fn fall_asleep(state: Ssd1677) -> Ssd1677
    ensures { result ≡ asleep state }
{
    let old = state.bus;
    let current = old.current;
    let bus = Bus {
        power: Power::Asleep,
        current,
        busy_until: None,
    };
    part::set_slept(state, bus, false, false)
}

// Bits 1:0.
fn mode(byte: u8) -> u8
    ensures { result ≡ byte % 4 }
{
    byte & 0b11
}

// 0x10. The Rust tests the high bits and then 01 and 10, and may call `reserved` for both; it reports once a command, so one test
// of the byte is the same.
pub fn deep_sleep(
    state: Ssd1677,
    black_white: &mut [u8],
    red: &mut [u8],
    log: &mut Log,
    byte: u8,
) -> Ssd1677
    ensures { with_ram result black_white.new red.new log.new ≡ slept byte (with_ram state black_white.old red.old log.old) }
{
    let noted = acts::check(state, log, 0x10, byte, (byte == 0) | (byte == 3));
    let low = mode(byte);
    if low == 0 {
        return noted;
    }
    if low == 3 {
        ram::fill(black_white, 0);
        ram::fill(red, 0);
        return fall_asleep(noted);
    }
    fall_asleep(noted)
}
