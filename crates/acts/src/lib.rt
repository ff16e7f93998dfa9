// The report of a value that the datasheet does not list (mod.rs, `reserved`, `check`), and BUSY for a span. What the parameters that act
// at once do is defined here too; the functions are in `deep_sleep` and `detection`.
#![tactic(auto)]

ghost use Rattle.std.specs.Prelude.{◌≡◌, length};
ghost use Rattle.world.specs.World.{with_log};
ghost use Rattle.start.specs.Start.{with_busy_for};
ghost use Rattle.acts.specs.Reserved.{reserved, checked};

use device::{Ssd1677, part};
use diagnostic::Log;

// 30, unless the command has reported one before.
fn report_reserved(state: Ssd1677, log: &mut Log, command: u8, value: u8) -> Ssd1677
    ensures { with_log result log.new ≡ reserved command value (with_log state log.old) }
{
    let journal = diagnostic_log::reserved(state.journal, log, state.now, command, value);
    part::set_journal(state, journal)
}

// 30 unless the datasheet lists the byte.
pub fn check(state: Ssd1677, log: &mut Log, command: u8, byte: u8, is_listed: bool) -> Ssd1677
    ensures { with_log result log.new ≡ checked is_listed command byte (with_log state log.old) }
{
    if is_listed {
        return state;
    }
    report_reserved(state, log, command, byte)
}

// BUSY high for `ns` nanoseconds from the clock on; nothing for 0.
pub fn busy_for(state: Ssd1677, ns: u64) -> Ssd1677
    ensures { result ≡ with_busy_for state ns }
{
    let config = state.config;
    let bus = moment::busy_for(state.bus, config.frequency, state.now, ns);
    part::set_bus(state, bus)
}
