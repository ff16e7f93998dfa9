// What a host changes in a state beside the events (mod.rs, `set_ambient`, `take_diagnostics`). Each call refuses a state with 13. What can
// be asked of one is defined here too; the functions are in `query_busy` and `query_state`.
#![tactic(auto)]

ghost use Rattle.std.specs.Prelude.{◌≡◌};
ghost use Rattle.guard.specs.Refusals.{refusal_number};
ghost use Rattle.query.specs.Outcome.{outcome, answer_in, state_in, state_guarded, given_back};
ghost use Rattle.query.specs.Queries.{with_ambient, ambient_set, taken_in, with_count, journal_emptied, diagnostics_taken};

use config::Ssd1677Config;
use device::{Ssd1677, part};
use diagnostic::Journal;
use guard::{Refusal, Refused};

// How many records were waiting in the log, and the state in which none does.
#[derive(Clone, Copy)]
pub struct Taken {
    pub state: Ssd1677,
    pub count: u16,
}

// 13, of a call that is lent nothing.
pub fn check_state(state: Ssd1677) -> Result<(), Refusal>
    ensures { result ≡ state_guarded state }
{
    if guard_state::state_is_fine(state) {
        return Ok(());
    }
    Err(Refusal::State)
}

// The same, of a question that hands the state back where it is refused.
pub fn check_given(state: Ssd1677) -> Result<(), Refused>
    ensures { result ≡ given_back state (state_guarded state) }
{
    match check_state(state) {
        Ok(()) => Ok(()),
        Err(refusal) => Err(Refused { refusal, state }),
    }
}

fn with_ambient(config: Ssd1677Config, register: u16) -> Ssd1677Config
    ensures { result ≡ with_ambient config register }
{
    let mut next = config;
    next.ambient = register;
    next
}

// Changes what the internal sensor reads, from the next temperature load; the low twelve bits count.
pub fn set_ambient(state: Ssd1677, register: u16) -> Result<Ssd1677, Refused>
    ensures { outcome (refusal_number (answer_in result)) (state_in result) ≡ ambient_set state register }
{
    match check_state(state) {
        Ok(()) => {
            let config = with_ambient(state.config, register);
            Ok(part::set_config(state, config))
        }
        Err(refusal) => Err(Refused { refusal, state }),
    }
}

fn none_waiting(journal: Journal) -> Journal
    ensures { result ≡ journal_emptied journal }
{
    let mut next = journal;
    next.count = 0;
    next
}

// The diagnostics since the last call are the log's first records, oldest first; the next one is written at its start.
pub fn take_diagnostics(state: Ssd1677) -> Result<Taken, Refused>
    ensures { outcome (refusal_number (answer_in result)) (with_count (taken_in result).state (taken_in result).count) ≡ diagnostics_taken state }
{
    match check_state(state) {
        Ok(()) => {
            let journal = state.journal;
            let count = journal.count;
            let state = part::set_journal(state, none_waiting(journal));
            Ok(Taken { state, count })
        }
        Err(refusal) => Err(Refused { refusal, state }),
    }
}
