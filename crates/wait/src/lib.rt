// The clock (mod.rs, `advance`).
#![tactic(auto)]

ghost use Rattle.std.specs.Prelude.{◌≡◌};
ghost use Rattle.guard.specs.Refusals.{refusal_number};
ghost use Rattle.query.specs.Outcome.{outcome, answer_in, state_in};
ghost use Rattle.counts.specs.Counts.{picture};
ghost use Rattle.world.specs.World.{with_glass};
ghost use Rattle.wait.specs.Wait.{clock_moved};

use device::Ssd1677;
use guard::{Refusal, Refused};

// Brings the chip to an instant: publishes a display that has ended, lowers BUSY. An instant before the latest one seen counts as the
// latest.
pub fn advance(
    state: Ssd1677,
    states: &mut [i64],
    luts: &[u8],
    pixels: &mut [u8],
    counts: &mut [u32],
    time: u64,
) -> Result<Ssd1677, Refused>
    ensures { outcome (refusal_number (answer_in result)) (with_glass (state_in result) states.new (picture pixels.new counts.new)) ≡ clock_moved luts.now time (with_glass state states.old (picture pixels.old counts.old)) }
{
    let lengths = guard_lengths::glass_lent(states.len(), luts.len(), pixels.len(), counts.len());
    if let Err(refusal) = guard::check(state, lengths) {
        return Err(Refused { refusal, state });
    }
    // The guard has seen the length.
    let Some(counts) = counts.as_mut_array() else {
        return Err(Refused {
            refusal: Refusal::Counts,
            state,
        });
    };
    Ok(clock::advance(state, states, luts, pixels, counts, time))
}
