// The log that keeps the diagnostics (mod.rs, `report` and `reserved`).
#![tactic(auto)]

ghost use Rattle.std.specs.Prelude.{◌≡◌, length};
ghost use Rattle.diagnostic.specs.Log.{entries, reported, reserved_reported};

use diagnostic::{DiagnosticKind, Journal, Log, MAX_DIAGNOSTICS};

// The record goes to the first free place; past the last only the dropped count rises.
pub fn report(journal: Journal, log: &mut Log, time: u64, kind: DiagnosticKind) -> Journal
    ensures { entries result log.new ≡ reported (entries journal log.old) time kind }
{
    let mut after = journal;
    let count = after.count;
    if count < MAX_DIAGNOSTICS {
        let bytes16 = diagnostic_record::record_of(time, kind);
        let at = 16 * (count as usize);
        let end = at + 16;
        byte_copy::copy(&bytes16, &mut log[at..end]);
        after.count = count + 1;
        return after;
    }
    after.dropped = after.dropped.saturating_add(1);
    after
}

// The first reserved or unlisted value of a command is reported; the others of the same command are not.
pub fn reserved(journal: Journal, log: &mut Log, time: u64, command: u8, value: u8) -> Journal
    ensures { entries result log.new ≡ reserved_reported (entries journal log.old) time command value }
{
    if journal.reserved_reported {
        return journal;
    }
    let mut after = journal;
    after.reserved_reported = true;
    report(
        after,
        log,
        time,
        DiagnosticKind::ReservedValue { command, value },
    )
}
