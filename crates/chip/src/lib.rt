// The end of a command, and a report (mod.rs, `close_command`, `report`).
#![tactic(auto)]

ghost use Rattle.std.specs.Prelude.{◌≡◌, length};
ghost use Rattle.world.specs.World.{with_log};
ghost use Rattle.chip.specs.Report.{logged};

use device::{Ssd1677, part};
use diagnostic::{DiagnosticKind, Log};

pub mod close;

// A diagnostic of the instant the clock shows.
pub fn report(state: Ssd1677, log: &mut Log, kind: DiagnosticKind) -> Ssd1677
    ensures { with_log result log.new ≡ logged kind (with_log state log.old) }
{
    let journal = diagnostic_log::report(state.journal, log, state.now, kind);
    part::set_journal(state, journal)
}
