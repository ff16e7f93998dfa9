// A byte with D/C# low (mod.rs, `write_command`).
#![tactic(auto)]

ghost use Rattle.std.specs.Prelude.{◌≡◌};
ghost use Rattle.guard.specs.Refusals.{refusal_number};
ghost use Rattle.query.specs.Outcome.{outcome, answer_in, state_in};
ghost use Rattle.counts.specs.Counts.{picture};
ghost use Rattle.world.specs.World.{with_buffers, lent};
ghost use Rattle.activation.specs.Activation.{Activatable};
ghost use Rattle.low.specs.Command.{command_taken, command_written};

use counts::Counts;
use device::Ssd1677;
use diagnostic::Log;
use guard::{Refusal, Refused};

// The clock moves, the last command is closed, and the new one begins.
fn take_command(
    state: Ssd1677,
    states: &mut [i64],
    luts: &mut [u8],
    pixels: &mut [u8],
    counts: &mut Counts,
    black_white: &[u8],
    red: &[u8],
    gates: &[u16],
    log: &mut Log,
    otp: &[u8],
    time: u64,
    command: u8,
) -> Ssd1677
    requires { Activatable state states.old luts.old pixels.old counts.old black_white.now red.now gates.now }
    ensures { with_buffers result states.new luts.new (picture pixels.new counts.new) log.new ≡ command_taken (lent black_white.now red.now gates.now otp.now) time command (with_buffers state states.old luts.old (picture pixels.old counts.old) log.old) }
{
    let present = clock::advance(state, states, &luts[..], pixels, counts, time);
    let closed = chip::close::close_command(present, log);
    admission::begin(
        closed,
        states,
        luts,
        pixels,
        counts,
        black_white,
        red,
        gates,
        log,
        otp,
        command,
    )
}

// A byte with D/C# low.
pub fn write_command(
    state: Ssd1677,
    states: &mut [i64],
    luts: &mut [u8],
    pixels: &mut [u8],
    counts: &mut [u32],
    black_white: &[u8],
    red: &[u8],
    gates: &[u16],
    log: &mut [u8],
    otp: &[u8],
    time: u64,
    command: u8,
) -> Result<Ssd1677, Refused>
    ensures { outcome (refusal_number (answer_in result)) (with_buffers (state_in result) states.new luts.new (picture pixels.new counts.new) log.new) ≡ command_written (lent black_white.now red.now gates.now otp.now) time command (with_buffers state states.old luts.old (picture pixels.old counts.old) log.old) }
{
    let lengths = guard_lengths::all_lent(
        states.len(),
        luts.len(),
        pixels.len(),
        counts.len(),
        log.len(),
        black_white.len(),
        red.len(),
        gates.len(),
    );
    if let Err(refusal) = guard::check_with_table(state, lengths, otp) {
        return Err(Refused { refusal, state });
    }
    // The guard has seen both lengths.
    let Some(counts) = counts.as_mut_array() else {
        return Err(Refused {
            refusal: Refusal::Counts,
            state,
        });
    };
    let Some(log) = log.as_mut_array() else {
        return Err(Refused {
            refusal: Refusal::Buffer,
            state,
        });
    };
    Ok(take_command(
        state,
        states,
        luts,
        pixels,
        counts,
        black_white,
        red,
        gates,
        log,
        otp,
        time,
        command,
    ))
}
