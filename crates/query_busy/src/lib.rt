// Whether a chip is busy, and its next deadline (mod.rs, `is_busy`, `busy_pin`, `next_deadline`). Each call refuses a state with 13.
#![tactic(auto)]

ghost use Rattle.std.specs.Prelude.{◌≡◌, false};
ghost use Rattle.query.specs.Outcome.{told};
ghost use Rattle.query.specs.Queries.{busy_asked, pin_asked, deadline_asked};

use device::Ssd1677;
use guard::Refusal;
use query::check_state;

// Whether the chip is busy: an operation runs, or it sleeps. Not while RES# is low.
pub fn is_busy(state: Ssd1677, time: u64) -> Result<bool, Refusal>
    ensures { told false result ≡ busy_asked state time }
{
    check_state(state).and(Ok(busy::busy(state, time)))
}

// The level of the BUSY pin: high while busy, unless the configuration inverts it.
pub fn busy_pin(state: Ssd1677, time: u64) -> Result<bool, Refusal>
    ensures { told false result ≡ pin_asked state time }
{
    check_state(state).and(Ok(busy::pin(state, time)))
}

// When BUSY falls, or a display ends and its image is published.
pub fn next_deadline(state: Ssd1677) -> Result<Option<u64>, Refusal>
    ensures { told None result ≡ deadline_asked state }
{
    check_state(state).and(Ok(busy::deadline(state)))
}
