// The reset line, and what a reset restores (mod.rs, `set_reset`, `restore_registers`).
#![tactic(auto)]

ghost use Rattle.std.specs.Prelude.{◌≡◌, length};
ghost use Rattle.counts.specs.Counts.{picture};
ghost use Rattle.world.specs.World.{with_glass, with_glass_log};
ghost use Rattle.clock.specs.Advance.{Ready};
ghost use Rattle.reset.specs.Reset.{restored, display_cut, cut, in_reset, asserted, released, by_line};

use counts::Counts;
use device::{Bus, Current, Power, Ssd1677, Status, part};
use diagnostic::{DiagnosticKind, Log};
use panel::Display;

// The registers at their reset values, the supplies off and the status bits cleared; the RAM stays.
pub fn restore_registers(state: Ssd1677) -> Ssd1677
    ensures { result ≡ restored state }
{
    let config = state.config;
    let user_id = config.user_id;
    let regs = registers::reset(user_id);
    let status = Status {
        hv_not_ready: false,
        vci_low: false,
    };
    part::set_powers(state, regs, false, false, status)
}

// The display is applied up to now and its image published.
fn finish_cut(
    state: Ssd1677,
    display: Display,
    states: &mut [i64],
    luts: &[u8],
    pixels: &mut [u8],
    counts: &mut Counts,
) -> Ssd1677
    requires { Ready state states.old luts.now pixels.old counts.old }
    ensures { with_glass result states.new (picture pixels.new counts.new) ≡ display_cut luts.now display (with_glass state states.old (picture pixels.old counts.old)) }
{
    let config = state.config;
    let optics = config.optics;
    let timing = config.timing;
    let periods = timing.frame_period;
    let panel = state.panel;
    let into = moment::ns_between(config.frequency, display.started, state.now);
    let finished = finish::finish(
        panel,
        display,
        optics.positive_drives_black,
        periods,
        state.now,
        Some(into),
        &mut states[..],
        luts,
        &mut pixels[..],
        counts,
    );
    part::set_glass(state, finished, None)
}

// A display cut once its driving has begun publishes what the glass reached; one whose stages before it had not ended is abandoned:
// the glass did not change.
fn cut_display(
    state: Ssd1677,
    states: &mut [i64],
    luts: &[u8],
    pixels: &mut [u8],
    counts: &mut Counts,
    log: &mut Log,
) -> Ssd1677
    requires { Ready state states.old luts.now pixels.old counts.old }
    ensures { with_glass_log result states.new (picture pixels.new counts.new) log.new ≡ cut luts.now (with_glass_log state states.old (picture pixels.old counts.old) log.old) }
{
    let Some(display) = state.display else {
        return state;
    };
    if display.started <= state.now {
        let noted = chip::report(state, log, DiagnosticKind::ResetDuringDisplay);
        return finish_cut(noted, display, states, luts, pixels, counts);
    }
    part::set_display(state, None)
}

// RES# is low: nothing is current and nothing runs.
fn enter_reset(state: Ssd1677) -> Ssd1677
    ensures { result ≡ in_reset state }
{
    let bus = Bus {
        power: Power::InReset,
        current: Current::Ignoring,
        busy_until: None,
    };
    part::set_bus(state, bus)
}

// RES# falls: whatever runs is stopped.
fn assert_reset(
    state: Ssd1677,
    states: &mut [i64],
    luts: &[u8],
    pixels: &mut [u8],
    counts: &mut Counts,
    log: &mut Log,
) -> Ssd1677
    requires { Ready state states.old luts.now pixels.old counts.old }
    ensures { with_glass_log result states.new (picture pixels.new counts.new) log.new ≡ asserted luts.now (with_glass_log state states.old (picture pixels.old counts.old) log.old) }
{
    let ended = chip::close::close_command(state, log);
    let stopped = cut_display(ended, states, luts, pixels, counts, log);
    let restored = restore_registers(stopped);
    enter_reset(restored)
}

// RES# rises: the chip runs, and is busy for the hardware reset.
fn release_reset(state: Ssd1677) -> Ssd1677
    ensures { result ≡ released state }
{
    let config = state.config;
    let timing = config.timing;
    let old = state.bus;
    let busy_until = old.busy_until;
    let running = Bus {
        power: Power::Running,
        current: Current::Idle,
        busy_until,
    };
    let bus = moment::busy_for(running, config.frequency, state.now, timing.hardware_reset);
    part::set_bus(state, bus)
}

// The line is put low or high. A level that it already has does nothing.
pub fn set_line(
    state: Ssd1677,
    states: &mut [i64],
    luts: &[u8],
    pixels: &mut [u8],
    counts: &mut Counts,
    log: &mut Log,
    low: bool,
) -> Ssd1677
    requires { Ready state states.old luts.now pixels.old counts.old }
    ensures { with_glass_log result states.new (picture pixels.new counts.new) log.new ≡ by_line luts.now low (with_glass_log state states.old (picture pixels.old counts.old) log.old) state.bus.power }
{
    let bus = state.bus;
    let power = bus.power;
    match power {
        Power::InReset => {
            if low {
                return state;
            }
            release_reset(state)
        }
        Power::Running => {
            if low {
                return assert_reset(state, states, luts, pixels, counts, log);
            }
            state
        }
        Power::Asleep => {
            if low {
                return assert_reset(state, states, luts, pixels, counts, log);
            }
            state
        }
    }
}
