// The waveform of the LUT register and what it does to a pixel (datasheet §6.6–6.7; waveform.rs).
// A phase holds one source level and one VCOM level for some frames; the pixel sees their difference, and its optical state
// moves in proportion to that voltage and to the time, stopping at black or white.
#![tactic(auto)]

ghost use Rattle.std.specs.Prelude.{◌≡◌};
ghost use Rattle.waveform.specs.Voltages.{levels_of, source_level, vcom_swing};

use glass::Transfer;

// The voltages that a waveform drives with, in millivolts. DCVCOM drives no pixel: it cancels the kickback of the panel's
// transistors, so a pixel sees the source level minus the swing of VCOM around it.
#[derive(Clone, Copy)]
pub struct Levels {
    pub vsh1: i64,
    pub vsh2: i64,
    pub vsl: i64,
}

impl Levels {
    // A code that the datasheet does not list reads 0 V; the command that wrote it reported it.
    pub fn from_setting(setting: &[u8; 112]) -> Levels
        ensures { result ≡ levels_of setting.now }
    {
        Levels {
            vsh1: voltage::source_millivolts(setting[106]).unwrap_or(0),
            vsh2: voltage::source_millivolts(setting[107]).unwrap_or(0),
            vsl: voltage::vsl_millivolts(setting[108]).unwrap_or(0),
        }
    }

    // The source level of a VS code (datasheet Table 6-6).
    pub fn source(self, code: u8) -> i64
        ensures { result ≡ source_level self code }
    {
        match code & 3 {
            1 => self.vsh1,
            2 => self.vsl,
            3 => self.vsh2,
            _ => 0,
        }
    }

    // The swing of VCOM around DCVCOM for a VS code of LUT 4. Code 3 is "N/A" and reads DCVCOM; the write of the LUT reported it.
    pub fn vcom_swing(self, code: u8) -> i64
        ensures { result ≡ vcom_swing self code }
    {
        match code & 3 {
            1 => self.vsh1, // VSH1 + DCVCOM
            2 => self.vsl, // VSL + DCVCOM
            _ => 0, // DCVCOM
        }
    }
}

// What drives a pixel or the border during the display.
#[derive(Clone, Copy)]
pub enum Drive {
    // The phases of a LUT, 0 to 4.
    Lut(usize),
    // One source level, a VS code, for every frame (the border's fixed level).
    Fixed(u8),
}

// One group as its setting has it.
#[derive(Clone, Copy)]
pub struct GroupCodes {
    // Frames of each phase, 0 skipping it.
    pub frames: [u8; 4],
    // How many times the group runs.
    pub repeats: u16,
    pub frame_rate: usize,
    // The VS code of LUT `lut` in phase `phase` at 4 × lut + phase.
    pub codes: [u8; 20],
}

// One group with the period of its frames.
#[derive(Clone, Copy)]
pub struct Group {
    pub frames: [u8; 4],
    pub repeats: u16,
    pub frame_ns: u64,
    pub codes: [u8; 20],
}

// The waveform of a LUT register.
#[derive(Clone, Copy)]
pub struct Waveform {
    pub groups: [Group; 10],
    pub levels: Levels,
}

// One phase as it drives a pixel: the source level against VCOM, for some frames.
#[derive(Clone, Copy)]
pub struct Phase {
    pub frames: u64,
    pub frame_ns: u64,
    pub millivolts: i64,
}

// A phase with the drive of all its frames, which every repeat of its group shares.
#[derive(Clone, Copy)]
pub struct DrivenPhase {
    pub phase: Phase,
    pub drive: i64,
}

// What stays the same while a waveform drives a pixel.
#[derive(Clone, Copy)]
pub struct Driving {
    pub levels: Levels,
    pub drive: Drive,
    pub swing: i64,
    pub positive_drives_black: bool,
}

// How far a walk up to a cut has come.
#[derive(Clone, Copy)]
pub struct Progress {
    pub transfer: Transfer,
    pub elapsed: u64,
    // The cut fell into a phase: nothing after it counts.
    pub stopped: bool,
}
