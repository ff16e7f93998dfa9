// What happens when the clock moves (mod.rs, `advance`).
#![tactic(auto)]

ghost use Rattle.std.specs.Prelude.{◌≡◌, max};
ghost use Rattle.counts.specs.Counts.{picture};
ghost use Rattle.device.specs.Parts.{with_now};
ghost use Rattle.world.specs.World.{with_glass};
ghost use Rattle.clock.specs.Advance.{Ready, ended, is_quiet, advanced};

use counts::Counts;
use device::{Ssd1677, part};

// A display whose end has come is finished whole, and its image published.
fn end_display(
    state: Ssd1677,
    states: &mut [i64],
    luts: &[u8],
    pixels: &mut [u8],
    counts: &mut Counts,
) -> Ssd1677
    requires { Ready state states.old luts.now pixels.old counts.old }
    ensures { with_glass result states.new (picture pixels.new counts.new) ≡ ended luts.now (with_glass state states.old (picture pixels.old counts.old)) }
{
    let Some(display) = state.display else {
        return state;
    };
    if display.ends <= state.now {
        let config = state.config;
        let optics = config.optics;
        let timing = config.timing;
        let periods = timing.frame_period;
        let panel = state.panel;
        let finished = finish::finish(
            panel,
            display,
            optics.positive_drives_black,
            periods,
            display.ends,
            None,
            &mut states[..],
            luts,
            &mut pixels[..],
            counts,
        );
        return part::set_glass(state, finished, None);
    }
    state
}

// The clock alone; an earlier moment than the latest seen counts as the latest.
pub fn move_clock(state: Ssd1677, time: u64) -> Ssd1677
    ensures { result ≡ with_now state (max state.«now» time) }
{
    let latest = state.now.max(time);
    part::set_now(state, latest)
}

// Whether at the clock no display ends and BUSY does not fall. Nearly every byte finds it so, and the state is then left alone: each
// function that it goes through by value may copy it.
pub fn is_quiet(state: Ssd1677) -> bool
    ensures { result ≡ is_quiet state }
{
    let bus = state.bus;
    let busy_until = bus.busy_until;
    let ends = panel::end_of(state.display);
    moment::is_quiet(ends, busy_until, state.now)
}

// Brings the chip to a moment; an earlier one than the latest seen counts as the latest.
pub fn advance(
    state: Ssd1677,
    states: &mut [i64],
    luts: &[u8],
    pixels: &mut [u8],
    counts: &mut Counts,
    time: u64,
) -> Ssd1677
    requires { Ready state states.old luts.now pixels.old counts.old }
    ensures { with_glass result states.new (picture pixels.new counts.new) ≡ advanced luts.now time (with_glass state states.old (picture pixels.old counts.old)) }
{
    let moved = move_clock(state, time);
    if is_quiet(moved) {
        return moved;
    }
    let shown = end_display(moved, &mut states[..], luts, &mut pixels[..], counts);
    let bus = moment::lower_busy(shown.bus, shown.now);
    part::set_bus(shown, bus)
}
