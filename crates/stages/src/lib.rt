// What 0x22 asks for, and what the stages of an activation change (mod.rs, `activate`).
#![tactic(auto)]

ghost use Rattle.std.specs.Prelude.{◌≡◌, length};
ghost use Rattle.stages.specs.Run.{control_of, step, noted, waited};
ghost use Rattle.stages.specs.Stages.{mode_of};

use config::DisplayMode;
use diagnostic::{DiagnosticKind, Journal, Log};

// The bits of Display Update Control 2 (0x22), from bit 7 down, one stage each but for the mode.
#[derive(Clone, Copy)]
pub struct Control {
    pub clock_on: bool,
    pub analog_on: bool,
    pub load_temperature: bool,
    pub load_lut: bool,
    pub mode_two: bool,
    pub display: bool,
    pub analog_off: bool,
    pub clock_off: bool,
}

pub fn control_of(byte: u8) -> Control
    ensures { result ≡ control_of byte }
{
    Control {
        clock_on: byte & 0x80 != 0,
        analog_on: byte & 0x40 != 0,
        load_temperature: byte & 0x20 != 0,
        load_lut: byte & 0x10 != 0,
        mode_two: byte & 0x08 != 0,
        display: byte & 0x04 != 0,
        analog_off: byte & 0x02 != 0,
        clock_off: byte & 0x01 != 0,
    }
}

// What the stages change, and the time that they have taken so far.
#[derive(Clone, Copy)]
pub struct Run {
    pub clock: bool,
    pub analog: bool,
    pub ns: u64,
    // Falls when a LUT load finds no waveform.
    pub waveform_found: bool,
    pub temperature: u16,
    pub lut: [u8; 112],
    pub journal: Journal,
    // The OTP entry of the last waveform loaded, 255 for none.
    pub waveform: u8,
}

pub fn note(run: Run, log: &mut Log, time: u64, kind: DiagnosticKind) -> Run
    ensures { step result log.new ≡ noted time kind (step run log.old) }
{
    let journal = diagnostic_log::report(run.journal, log, time, kind);
    let mut next = run;
    next.journal = journal;
    next
}

pub fn wait(run: Run, ns: u64) -> Run
    ensures { result ≡ waited ns run }
{
    let sum = run.ns.saturating_add(ns);
    let mut next = run;
    next.ns = sum;
    next
}

pub fn mode_of(two: bool) -> DisplayMode
    ensures { result ≡ mode_of two }
{
    if two {
        DisplayMode::Two
    } else {
        DisplayMode::One
    }
}
