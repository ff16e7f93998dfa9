// Whether a state handed in is one that the calls may work on. Every byte that is written asks this, so nothing here loops, and the
// tests are joined by `&`, which branches nowhere.
#![tactic(auto)]

ghost use Rattle.std.specs.Prelude.{◌≡◌};
ghost use Rattle.guard_state.specs.State.{panel_fine, swing_fine, periods_fine, registers_fine, state_fine};

use config::PanelGeometry;
use device::{Registers, Ssd1677};
use diagnostic::MAX_DIAGNOSTICS;
use guard_kinds::current_is_fine;
use panel::Panel;

const MOST_ADDRESS: u16 = 1023;

const MOST_ENTRY: u8 = 7;

const MOST_TEMPERATURE: u16 = 4095;

const MOST_SWING: i64 = 9_223_372_036_854_775_807;

fn panel_is_fine(panel: PanelGeometry) -> bool
    ensures { result ≡ panel_fine panel }
{
    config::check_geometry(panel).is_ok()
}

fn swing_is_fine(glass: Panel) -> bool
    ensures { result ≡ swing_fine glass.swing }
{
    (1 <= glass.swing) & (glass.swing <= MOST_SWING)
}

fn periods_are_fine(periods: [u64; 16]) -> bool
    ensures { result ≡ periods_fine periods }
{
    let zero = (periods[0] == 0)
        | (periods[1] == 0)
        | (periods[2] == 0)
        | (periods[3] == 0)
        | (periods[4] == 0)
        | (periods[5] == 0)
        | (periods[6] == 0)
        | (periods[7] == 0)
        | (periods[8] == 0)
        | (periods[9] == 0)
        | (periods[10] == 0)
        | (periods[11] == 0)
        | (periods[12] == 0)
        | (periods[13] == 0)
        | (periods[14] == 0)
        | (periods[15] == 0);
    !zero
}

fn registers_are_fine(regs: Registers) -> bool
    ensures { result ≡ registers_fine regs }
{
    let window = regs.window;
    let counter = regs.counter;
    let entry = regs.entry;
    (regs.mux <= MOST_ADDRESS)
        & (window.x_start <= MOST_ADDRESS)
        & (window.x_end <= MOST_ADDRESS)
        & (window.y_start <= MOST_ADDRESS)
        & (window.y_end <= MOST_ADDRESS)
        & (counter.x <= MOST_ADDRESS)
        & (counter.y <= MOST_ADDRESS)
        & (entry.0 <= MOST_ENTRY)
        & (regs.temperature <= MOST_TEMPERATURE)
}

pub fn state_is_fine(state: Ssd1677) -> bool
    ensures { result ≡ state_fine state }
{
    let config = state.config;
    let timing = config.timing;
    let periods = timing.frame_period;
    let bus = state.bus;
    let current = bus.current;
    let journal = state.journal;
    let geometry_fine = panel_is_fine(config.panel);
    let swing_fine = swing_is_fine(state.panel);
    let periods_fine = periods_are_fine(periods);
    let registers_fine = registers_are_fine(state.regs);
    let current_fine = current_is_fine(current);
    geometry_fine
        & swing_fine
        & periods_fine
        & registers_fine
        & (journal.count <= MAX_DIAGNOSTICS)
        & current_fine
        & (config.frequency != 0)
}
