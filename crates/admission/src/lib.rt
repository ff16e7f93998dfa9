// A command byte, once the clock has moved and the last command is closed: whether the chip hears it (mod.rs, `write_command`).
#![tactic(auto)]

ghost use Rattle.std.specs.Prelude.{◌≡◌};
ghost use Rattle.counts.specs.Counts.{picture};
ghost use Rattle.world.specs.World.{with_buffers, lent};
ghost use Rattle.activation.specs.Activation.{Activatable};
ghost use Rattle.begin.specs.Begin.{begun};

use counts::Counts;
use device::{Power, Ssd1677};
use diagnostic::{DiagnosticKind, Log};

// In reset, asleep and while BUSY is high a command is dropped, but for the status read, 0x2F, which a busy chip takes.
pub fn begin(
    state: Ssd1677,
    states: &mut [i64],
    luts: &mut [u8],
    pixels: &mut [u8],
    counts: &mut Counts,
    black_white: &[u8],
    red: &[u8],
    gates: &[u16],
    log: &mut Log,
    otp: &[u8],
    command: u8,
) -> Ssd1677
    requires { Activatable state states.old luts.old pixels.old counts.old black_white.now red.now gates.now }
    ensures { with_buffers result states.new luts.new (picture pixels.new counts.new) log.new ≡ begun (lent black_white.now red.now gates.now otp.now) command (with_buffers state states.old luts.old (picture pixels.old counts.old) log.old) state.bus.power }
{
    let bus = state.bus;
    let power = bus.power;
    match power {
        Power::InReset => chip::report(state, log, DiagnosticKind::WhileInReset { command }),
        Power::Asleep => chip::report(state, log, DiagnosticKind::WhileAsleep { command }),
        Power::Running => {
            let busy_until = bus.busy_until;
            let is_busy = busy::is_pending(busy_until, state.now);
            if is_busy & (command != 0x2F) {
                return chip::report(state, log, DiagnosticKind::WhileBusy { command });
            }
            begin::decode(
                state,
                states,
                luts,
                pixels,
                counts,
                black_white,
                red,
                gates,
                log,
                otp,
                command,
            )
        }
    }
}
