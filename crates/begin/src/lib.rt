// A command that the chip hears, by Table 7-1 (mod.rs, `write_command` and `start_command`).
#![tactic(auto)]

ghost use Rattle.std.specs.Prelude.{◌≡◌};
ghost use Rattle.command.specs.Table.{kind_of};
ghost use Rattle.counts.specs.Counts.{picture};
ghost use Rattle.world.specs.World.{with_buffers, lent, on, device_in_buffers};
ghost use Rattle.activation.specs.Activation.{Activatable};
ghost use Rattle.begin.specs.Begin.{command_made, run, command_by_kind};

use counts::Counts;
use device::{Active, Current, Kind, Ssd1677, part};
use diagnostic::{DiagnosticKind, Log};

// The command that later data belong to.
fn make_current(state: Ssd1677, command: u8, kind: Kind) -> Ssd1677
    ensures { result ≡ command_made command kind state }
{
    let active = Active {
        command,
        kind,
        received: 0,
        read: 0,
        extra_reported: false,
        range_reported: false,
        nothing_reported: false,
    };
    let bus = part::set_current(state.bus, Current::Active(active));
    part::set_bus(state, bus)
}

// What a command does when its byte arrives.
fn start_command(
    state: Ssd1677,
    states: &mut [i64],
    luts: &mut [u8],
    pixels: &mut [u8],
    counts: &mut Counts,
    black_white: &[u8],
    red: &[u8],
    gates: &[u16],
    log: &mut Log,
    otp: &[u8],
    command: u8,
) -> Ssd1677
    requires { Activatable state states.old luts.old pixels.old counts.old black_white.now red.now gates.now }
    ensures { with_buffers result states.new luts.new (picture pixels.new counts.new) log.new ≡ run (lent black_white.now red.now gates.now otp.now) command (with_buffers state states.old luts.old (picture pixels.old counts.old) log.old) }
{
    if command == 0x12 {
        return start::soft_reset(state);
    }
    if command == 0x20 {
        return activation::activate(
            state,
            states,
            luts,
            pixels,
            counts,
            black_white,
            red,
            gates,
            log,
            otp,
        );
    }
    if command == 0x28 {
        return start::sense_vcom(state, log);
    }
    if (command == 0x24) | (command == 0x26) | (command == 0x27) {
        return start::point(state, log, command);
    }
    state
}

// A command that is written or read is made current, and started.
fn accept(
    state: Ssd1677,
    states: &mut [i64],
    luts: &mut [u8],
    pixels: &mut [u8],
    counts: &mut Counts,
    black_white: &[u8],
    red: &[u8],
    gates: &[u16],
    log: &mut Log,
    otp: &[u8],
    command: u8,
    kind: Kind,
) -> Ssd1677
    requires { Activatable state states.old luts.old pixels.old counts.old black_white.now red.now gates.now }
    ensures { with_buffers result states.new luts.new (picture pixels.new counts.new) log.new ≡ run (lent black_white.now red.now gates.now otp.now) command (on device_in_buffers (command_made command kind) (with_buffers state states.old luts.old (picture pixels.old counts.old) log.old)) }
{
    let current = make_current(state, command, kind);
    start_command(
        current,
        states,
        luts,
        pixels,
        counts,
        black_white,
        red,
        gates,
        log,
        otp,
        command,
    )
}

// By what Table 7-1 has for the command; one that it does not have is logged and ignored.
pub fn decode(
    state: Ssd1677,
    states: &mut [i64],
    luts: &mut [u8],
    pixels: &mut [u8],
    counts: &mut Counts,
    black_white: &[u8],
    red: &[u8],
    gates: &[u16],
    log: &mut Log,
    otp: &[u8],
    command: u8,
) -> Ssd1677
    requires { Activatable state states.old luts.old pixels.old counts.old black_white.now red.now gates.now }
    ensures { with_buffers result states.new luts.new (picture pixels.new counts.new) log.new ≡ command_by_kind (lent black_white.now red.now gates.now otp.now) command (with_buffers state states.old luts.old (picture pixels.old counts.old) log.old) (kind_of command) }
{
    let known = command::kind(command);
    // The last command was closed before this byte was looked at, so that data which follow are ignored: there is no more to do than to log.
    let Some(kind) = known else {
        return chip::report(state, log, DiagnosticKind::UnknownCommand { command });
    };
    match kind {
        Kind::Reserved => chip::report(state, log, DiagnosticKind::ReservedCommand { command }),
        Kind::Unsupported => chip::report(
            state,
            log,
            DiagnosticKind::UnsupportedCommand { command },
        ),
        Kind::Write(_) => accept(
            state,
            states,
            luts,
            pixels,
            counts,
            black_white,
            red,
            gates,
            log,
            otp,
            command,
            kind,
        ),
        Kind::Read => accept(
            state,
            states,
            luts,
            pixels,
            counts,
            black_white,
            red,
            gates,
            log,
            otp,
            command,
            kind,
        ),
    }
}
