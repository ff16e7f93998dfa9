// A byte with D/C# high that the chip drives (mod.rs, `read_data`).
#![tactic(auto)]

ghost use Rattle.std.specs.Prelude.{◌≡◌};
ghost use Rattle.counts.specs.Counts.{picture};
ghost use Rattle.world.specs.World.{with_glass_log};
ghost use Rattle.guard.specs.Refusals.{refusal_number};
ghost use Rattle.query.specs.Outcome.{outcome, answer_in};
ghost use Rattle.driven.specs.Read.{reading_in, with_read, data_read};

use device::Ssd1677;
use guard::{Refusal, Refused};
use reading::Reading;

// A byte read by the MCU. None when the chip drives nothing: the line floats, the board decides its level.
pub fn read_data(
    state: Ssd1677,
    states: &mut [i64],
    luts: &[u8],
    pixels: &mut [u8],
    counts: &mut [u32],
    black_white: &[u8],
    red: &[u8],
    log: &mut [u8],
    time: u64,
) -> Result<Reading, Refused>
    ensures { outcome (refusal_number (answer_in result)) (with_read (with_glass_log (reading_in result).state states.new (picture pixels.new counts.new) log.new) (reading_in result).byte) ≡ data_read luts.now black_white.now red.now time (with_glass_log state states.old (picture pixels.old counts.old) log.old) }
{
    let lengths = guard_lengths::planes_log_lent(
        states.len(),
        luts.len(),
        pixels.len(),
        counts.len(),
        log.len(),
        black_white.len(),
        red.len(),
    );
    if let Err(refusal) = guard::check(state, lengths) {
        return Err(Refused { refusal, state });
    }
    // The guard has seen both lengths.
    let Some(counts) = counts.as_mut_array() else {
        return Err(Refused {
            refusal: Refusal::Counts,
            state,
        });
    };
    let Some(log) = log.as_mut_array() else {
        return Err(Refused {
            refusal: Refusal::Buffer,
            state,
        });
    };
    let present = clock::advance(state, states, luts, pixels, counts, time);
    Ok(reading::read(present, black_white, red, log))
}
