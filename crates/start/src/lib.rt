// What 0x12, 0x28 and the RAM commands do when their byte arrives (mod.rs, `start_command`, `powered`).
#![tactic(auto)]

ghost use Rattle.std.specs.Prelude.{◌≡◌, length};
ghost use Rattle.world.specs.World.{with_log};
ghost use Rattle.start.specs.Start.{soft_reset, is_powered, unpowered, vcom_sensed, pointed};

use device::{Ssd1677, part};
use diagnostic::{DiagnosticKind, Log, Stage};
use numbers::low_nibble;

// A second, in nanoseconds.
const SECOND: u64 = 1000000000;

// 0x12: the registers are restored; BUSY is high for the time of a SW reset.
pub fn soft_reset(state: Ssd1677) -> Ssd1677
    ensures { result ≡ soft_reset state }
{
    let restored = reset::restore_registers(state);
    let config = restored.config;
    let timing = config.timing;
    let bus = moment::busy_for(
        restored.bus,
        config.frequency,
        restored.now,
        timing.soft_reset,
    );
    part::set_bus(restored, bus)
}

// Whether the clock and the analog supplies are on.
pub fn powered(state: Ssd1677) -> bool
    ensures { result ≡ is_powered state }
{
    state.clock & state.analog
}

// The stage is skipped without the clock or the analog supplies.
pub fn report_unpowered(state: Ssd1677, log: &mut Log, stage: Stage) -> Ssd1677
    ensures { with_log result log.new ≡ unpowered stage (with_log state log.old) }
{
    if state.clock {
        if state.analog {
            return state;
        }
        return chip::report(state, log, DiagnosticKind::WithoutAnalog { stage });
    }
    chip::report(state, log, DiagnosticKind::WithoutClock { stage })
}

// 0x28: the sensing takes the seconds of 0x29, with the supplies on.
pub fn sense_vcom(state: Ssd1677, log: &mut Log) -> Ssd1677
    ensures { with_log result log.new ≡ vcom_sensed (with_log state log.old) }
{
    if powered(state) {
        let config = state.config;
        let regs = state.regs;
        let low = low_nibble(regs.vcom_sense);
        let seconds = low as u64 + 1;
        let bus = moment::busy_for(state.bus, config.frequency, state.now, seconds * SECOND);
        return part::set_bus(state, bus);
    }
    report_unpowered(state, log, Stage::VcomSense)
}

// 0x24, 0x26 and 0x27: 32 where the counter lies outside the window (datasheet §8.5).
pub fn point(state: Ssd1677, log: &mut Log, command: u8) -> Ssd1677
    ensures { with_log result log.new ≡ pointed command (with_log state log.old) }
{
    let regs = state.regs;
    let at = regs.counter;
    let window = regs.window;
    if at.within(window) {
        return state;
    }
    chip::report(
        state,
        log,
        DiagnosticKind::CounterOutsideWindow {
            command,
            x: at.x,
            y: at.y,
        },
    )
}
