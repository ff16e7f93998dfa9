// The end of a command: another one, or a reset, has come (mod.rs, `close_command`).
ghost use Rattle.std.specs.Prelude.{◌≡◌};
ghost use Rattle.diagnostic.specs.Log.{entries};
ghost use Rattle.world.specs.World.{with_log};
ghost use Rattle.chip.specs.Close.{missing, reserved_unreported, closed};

use device::{Current, Ssd1677, part};
use diagnostic::{DiagnosticKind, Journal, Log};

// 26 where the current command lacks parameters.
fn report_missing(journal: Journal, log: &mut Log, current: Current, time: u64) -> Journal
    ensures { entries result log.new ≡ missing time (entries journal log.old) current }
{
    match current {
        Current::Idle => journal,
        Current::Ignoring => journal,
        Current::Active(active) => {
            let Some(bounds) = active.kind.bounds() else {
                return journal;
            };
            if active.received < bounds.least {
                let kind = DiagnosticKind::MissingData {
                    command: active.command,
                    expected: bounds.least,
                    received: active.received,
                };
                return diagnostic_log::report(journal, log, time, kind);
            }
            journal
        }
    }
}

// The next command may report a reserved value again.
fn fresh_command(journal: Journal) -> Journal
    ensures { result ≡ reserved_unreported journal }
{
    let mut next = journal;
    next.reserved_reported = false;
    next
}

pub fn close_command(state: Ssd1677, log: &mut Log) -> Ssd1677
    ensures { with_log result log.new ≡ closed (with_log state log.old) }
{
    let old = state.bus;
    let current = old.current;
    let reported = report_missing(state.journal, log, current, state.now);
    let journal = fresh_command(reported);
    let noted = part::set_journal(state, journal);
    let bus = part::set_current(old, Current::Ignoring);
    part::set_bus(noted, bus)
}
