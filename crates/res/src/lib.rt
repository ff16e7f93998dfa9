// The reset line (mod.rs, `set_reset`).
#![tactic(auto)]

ghost use Rattle.std.specs.Prelude.{◌≡◌};
ghost use Rattle.guard.specs.Refusals.{refusal_number};
ghost use Rattle.query.specs.Outcome.{outcome, answer_in, state_in};
ghost use Rattle.counts.specs.Counts.{picture};
ghost use Rattle.world.specs.World.{with_glass_log};
ghost use Rattle.res.specs.Line.{line_moved};

use device::Ssd1677;
use guard::{Refusal, Refused};

// Drives RES#: `asserted` is the line low. Asserting it stops whatever runs (a display keeps what it drove so far) and restores the
// registers; releasing it wakes a sleeping chip, which stays busy for the hardware-reset time.
pub fn set_reset(
    state: Ssd1677,
    states: &mut [i64],
    luts: &[u8],
    pixels: &mut [u8],
    counts: &mut [u32],
    log: &mut [u8],
    time: u64,
    asserted: bool,
) -> Result<Ssd1677, Refused>
    ensures { outcome (refusal_number (answer_in result)) (with_glass_log (state_in result) states.new (picture pixels.new counts.new) log.new) ≡ line_moved luts.now time asserted (with_glass_log state states.old (picture pixels.old counts.old) log.old) }
{
    let lengths = guard_lengths::glass_log_lent(
        states.len(),
        luts.len(),
        pixels.len(),
        counts.len(),
        log.len(),
    );
    if let Err(refusal) = guard::check(state, lengths) {
        return Err(Refused { refusal, state });
    }
    // The guard has seen both lengths.
    let Some(counts) = counts.as_mut_array() else {
        return Err(Refused {
            refusal: Refusal::Counts,
            state,
        });
    };
    let Some(log) = log.as_mut_array() else {
        return Err(Refused {
            refusal: Refusal::Buffer,
            state,
        });
    };
    let present = clock::advance(state, states, luts, pixels, counts, time);
    Ok(reset::set_line(present, states, luts, pixels, counts, log, asserted))
}
