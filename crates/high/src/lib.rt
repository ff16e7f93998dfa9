// A byte with D/C# high (mod.rs, `write_data`).
#![tactic(auto)]

ghost use Rattle.std.specs.Prelude.{◌≡◌};
ghost use Rattle.guard.specs.Refusals.{refusal_number};
ghost use Rattle.query.specs.Outcome.{outcome, answer_in, state_in};
ghost use Rattle.counts.specs.Counts.{picture};
ghost use Rattle.world.specs.World.{with_planes};
ghost use Rattle.high.specs.Data.{data_written};

use device::{Ssd1677, part};
use guard::{Refusal, Refused};

// A byte with D/C# high, written by the MCU. A byte of RAM data, of which a frame has 48,000, is done here at once.
pub fn write_data(
    state: Ssd1677,
    states: &mut [i64],
    luts: &[u8],
    pixels: &mut [u8],
    counts: &mut [u32],
    black_white: &mut [u8],
    red: &mut [u8],
    log: &mut [u8],
    time: u64,
    byte: u8,
) -> Result<Ssd1677, Refused>
    ensures { outcome (refusal_number (answer_in result)) (with_planes (state_in result) states.new (picture pixels.new counts.new) black_white.new red.new log.new) ≡ data_written luts.now time byte (with_planes state states.old (picture pixels.old counts.old) black_white.old red.old log.old) }
{
    let lengths = guard_lengths::planes_log_lent(
        states.len(),
        luts.len(),
        pixels.len(),
        counts.len(),
        log.len(),
        black_white.len(),
        red.len(),
    );
    if let Err(refusal) = guard::check(state, lengths) {
        return Err(Refused { refusal, state });
    }
    // The guard has seen both lengths.
    let Some(counts) = counts.as_mut_array() else {
        return Err(Refused {
            refusal: Refusal::Counts,
            state,
        });
    };
    let Some(log) = log.as_mut_array() else {
        return Err(Refused {
            refusal: Refusal::Buffer,
            state,
        });
    };
    let moved = clock::move_clock(state, time);
    if clock::is_quiet(moved) {
        return match data::stream(moved, black_white, red, byte) {
            Some(step) => Ok(part::set_pointed(moved, step.counter, step.bus)),
            None => Ok(data::write_other(moved, black_white, red, log, byte)),
        };
    }
    let present = clock::advance(state, states, luts, pixels, counts, time);
    Ok(data::write(present, black_white, red, log, byte))
}
