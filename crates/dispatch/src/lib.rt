// An event handed to the entry point that it is for.
#![tactic(auto)]

ghost use Rattle.std.specs.Prelude.{◌≡◌};
ghost use Rattle.guard.specs.Refusals.{refusal_number};
ghost use Rattle.query.specs.Outcome.{outcome, answer_in};
ghost use Rattle.counts.specs.Counts.{picture};
ghost use Rattle.world.specs.World.{world};
ghost use Rattle.driven.specs.Read.{reading_in};
ghost use Rattle.dispatch.specs.Dispatch.{told, silent, dispatched};

use device::Ssd1677;
use event::Event;
use ssd1677::{Reading, Refused};

// An event that is no read gives no byte.
fn silent(answer: Result<Ssd1677, Refused>) -> Result<Reading, Refused>
    ensures { result ≡ silent answer }
{
    let state = answer?;
    Ok(Reading { state, byte: None })
}

// The call that an event makes, over the buffers of the whole device.
pub fn dispatch(
    state: Ssd1677,
    states: &mut [i64],
    luts: &mut [u8],
    pixels: &mut [u8],
    counts: &mut [u32],
    black_white: &mut [u8],
    red: &mut [u8],
    gates: &[u16],
    log: &mut [u8],
    otp: &[u8],
    event: Event,
) -> Result<Reading, Refused>
    ensures { outcome (refusal_number (answer_in result)) (told (world (reading_in result).state states.new luts.new (picture pixels.new counts.new) black_white.new red.new gates.now log.new) (reading_in result).byte) ≡ dispatched otp.now (world state states.old luts.old (picture pixels.old counts.old) black_white.old red.old gates.now log.old) event }
{
    match event {
        Event::Command(time, command) => silent(ssd1677::write_command(
            state,
            states,
            luts,
            pixels,
            counts,
            black_white,
            red,
            gates,
            log,
            otp,
            time,
            command,
        )),
        Event::Data(time, byte) => silent(ssd1677::write_data(
            state,
            states,
            luts,
            pixels,
            counts,
            black_white,
            red,
            log,
            time,
            byte,
        )),
        Event::Read(time) => {
            ssd1677::read_data(
                state,
                states,
                luts,
                pixels,
                counts,
                black_white,
                red,
                log,
                time,
            )
        }
        Event::Reset(time, asserted) => silent(ssd1677::set_reset(
            state, states, luts, pixels, counts, log, time, asserted,
        )),
        Event::Advance(time) => silent(ssd1677::advance(state, states, luts, pixels, counts, time)),
    }
}
