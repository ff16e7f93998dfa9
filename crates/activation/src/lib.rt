// 0x20: the stages that 0x22 enables, in their order; here the display, the supplies' end and the whole (mod.rs, `activate` and
// `start_display`).
#![tactic(auto)]

ghost use Rattle.std.specs.Prelude.{◌≡◌, ◌<◌, length};
ghost use Rattle.waveform.specs.Setting.{waveform_of};
ghost use Rattle.waveform.specs.Duration.{duration_of};
ghost use Rattle.stages.specs.Run.{step};
ghost use Rattle.activation.specs.Display.{refresh_kind_of, scan_of, warned, display_of, displayed, Startable, displayBegun, displayShown};
ghost use Rattle.counts.specs.Counts.{picture};
ghost use Rattle.world.specs.World.{with_buffers, lent};
ghost use Rattle.activation.specs.Activation.{analog_off, clock_off, run_of, run_settled, with_luts, staged, Activatable, activated};

use counts::Counts;
use device::{Registers, Ssd1677, part};
use diagnostic::{DiagnosticKind, Log, Stage};
use glass::RefreshKind;
use panel::Display;
use scan::{PlaneOption, Scan};
use stages::Run;

fn kind_of(two: bool) -> RefreshKind
    ensures { result ≡ refresh_kind_of two }
{
    if two {
        RefreshKind::Partial
    } else {
        RefreshKind::Full
    }
}

// What the display reads from the registers.
fn scan_of(regs: Registers) -> Scan
    requires { regs.mux < 1024 }
    ensures { result ≡ scan_of regs }
{
    let options = regs.update_control_1;
    let order = regs.gate_scan;
    let red = PlaneOption::from_nibble(options[0] >> 4);
    let black_white = PlaneOption::from_nibble(options[0]);
    Scan {
        lines: regs.mux + 1,
        order,
        red,
        black_white,
    }
}

// 37 where 0x37 asks for the RAM ping-pong of display mode 2.
fn warn(run: Run, log: &mut Log, time: u64, two: bool, options: [u8; 10]) -> Run
    ensures { step result log.new ≡ warned time two options (step run log.old) }
{
    if two & (options[5] & 0x40 != 0) {
        return stages::note(run, log, time, DiagnosticKind::RamPingPong);
    }
    run
}

fn duration_of(lut: [u8; 112], frame_period: [u64; 16]) -> u64
    ensures { result ≡ duration_of (waveform_of lut frame_period) }
{
    let waveform = setting::from_setting(&lut, &frame_period);
    duration::duration_ns(waveform)
}

// The display that starts `before` nanoseconds from now and lasts `ns`.
fn display_of(
    setting: [u8; 112],
    border: u8,
    frequency: u32,
    time: u64,
    before: u64,
    ns: u64,
    two: bool,
) -> Display
    ensures { result ≡ display_of setting border frequency time before ns two }
{
    let started = moment::after(frequency, time, before);
    let whole = before.saturating_add(ns);
    let ends = moment::after(frequency, time, whole);
    let kind = kind_of(two);
    Display {
        started,
        ends,
        kind,
        setting,
        border,
    }
}

// A run with the display that it has started, or the one before.
#[derive(Clone, Copy)]
pub struct Shown {
    pub run: Run,
    pub display: Option<Display>,
}

fn start_display(
    run: Run,
    luts: &mut [u8],
    black_white: &[u8],
    red: &[u8],
    gates: &[u16],
    log: &mut Log,
    state: Ssd1677,
    two: bool,
) -> Shown
    requires { Startable state.regs state.config.panel luts.old black_white.now red.now gates.now }
    ensures { displayed result.run result.display luts.new log.new ≡ displayBegun black_white.now red.now gates.now state two (step run log.old) luts.old }
{
    let regs = state.regs;
    let config = state.config;
    let timing = config.timing;
    let periods = timing.frame_period;
    let options = regs.display_option;
    let lut = run.lut;
    let scan = scan_of(regs);
    let warned = warn(run, log, state.now, two, options);
    let ns = duration_of(lut, periods);
    scan::start(&mut luts[..], gates, red, black_white, config.panel, scan);
    let display = display_of(
        lut,
        regs.border,
        config.frequency,
        state.now,
        run.ns,
        ns,
        two,
    );
    let next = stages::wait(warned, ns);
    Shown {
        run: next,
        display: Some(display),
    }
}

// The display, unless a LUT load found no waveform; it needs the clock and the analog supplies (mod.rs, `powered`).
fn show(
    run: Run,
    luts: &mut [u8],
    black_white: &[u8],
    red: &[u8],
    gates: &[u16],
    log: &mut Log,
    state: Ssd1677,
    wanted: bool,
    two: bool,
) -> Shown
    requires { Startable state.regs state.config.panel luts.old black_white.now red.now gates.now }
    ensures { displayed result.run result.display luts.new log.new ≡ displayShown black_white.now red.now gates.now state wanted two (step run log.old) luts.old }
{
    let display = state.display;
    let stage = Stage::Display;
    if wanted & run.waveform_found {
        if run.clock {
            if run.analog {
                return start_display(run, luts, black_white, red, gates, log, state, two);
            }
            let next = stages::note(run, log, state.now, DiagnosticKind::WithoutAnalog { stage });
            return Shown { run: next, display };
        }
        let next = stages::note(run, log, state.now, DiagnosticKind::WithoutClock { stage });
        return Shown { run: next, display };
    }
    Shown { run, display }
}

fn analog_off(run: Run, wanted: bool, ns: u64) -> Run
    ensures { result ≡ analog_off wanted ns run }
{
    if wanted & run.analog {
        let mut next = run;
        next.analog = false;
        return stages::wait(next, ns);
    }
    run
}

fn clock_off(run: Run, wanted: bool) -> Run
    ensures { result ≡ clock_off wanted run }
{
    if wanted {
        let mut next = run;
        next.clock = false;
        return next;
    }
    run
}

fn run_of(state: Ssd1677) -> Run
    ensures { result ≡ run_of state }
{
    let regs = state.regs;
    let lut = regs.lut;
    let journal = state.journal;
    Run {
        clock: state.clock,
        analog: state.analog,
        ns: 0,
        waveform_found: true,
        temperature: regs.temperature,
        lut,
        journal,
        waveform: regs.waveform,
    }
}

// The run goes back into the state, which is busy for its time.
fn settle(state: Ssd1677, run: Run, display: Option<Display>) -> Ssd1677
    ensures { result ≡ run_settled state run display }
{
    let config = state.config;
    let lut = run.lut;
    let regs = part::set_loaded(state.regs, run.temperature, lut, run.waveform);
    let bus = moment::busy_for(state.bus, config.frequency, state.now, run.ns);
    part::set_activated(
        state,
        regs,
        bus,
        run.clock,
        run.analog,
        display,
        run.journal,
    )
}

fn run_stages(
    state: Ssd1677,
    luts: &mut [u8],
    black_white: &[u8],
    red: &[u8],
    gates: &[u16],
    log: &mut Log,
    otp: &[u8],
) -> Ssd1677
    requires { Startable state.regs state.config.panel luts.old black_white.now red.now gates.now }
    ensures { with_luts result luts.new log.new ≡ staged (lent black_white.now red.now gates.now otp.now) (with_luts state luts.old log.old) }
{
    let regs = state.regs;
    let config = state.config;
    let timing = config.timing;
    let control = stages::control_of(regs.update_control_2);
    let a = loading::load(
        run_of(state),
        log,
        state.now,
        control,
        regs.sensor,
        config,
        otp,
    );
    let wanted = control.display;
    let s = show(
        a,
        luts,
        black_white,
        red,
        gates,
        log,
        state,
        wanted,
        control.mode_two,
    );
    let b = analog_off(s.run, control.analog_off, timing.analog_off);
    let c = clock_off(b, control.clock_off);
    settle(state, c, s.display)
}

// 0x20; a display of no frame ends now.
pub fn activate(
    state: Ssd1677,
    states: &mut [i64],
    luts: &mut [u8],
    pixels: &mut [u8],
    counts: &mut Counts,
    black_white: &[u8],
    red: &[u8],
    gates: &[u16],
    log: &mut Log,
    otp: &[u8],
) -> Ssd1677
    requires { Activatable state states.old luts.old pixels.old counts.old black_white.now red.now gates.now }
    ensures { with_buffers result states.new luts.new (picture pixels.new counts.new) log.new ≡ activated (lent black_white.now red.now gates.now otp.now) (with_buffers state states.old luts.old (picture pixels.old counts.old) log.old) }
{
    let settled = run_stages(state, luts, black_white, red, gates, log, otp);
    clock::advance(settled, states, &luts[..], pixels, counts, settled.now)
}
