// Whether the datasheet lists a parameter byte (mod.rs, `driver_output`, `waveform_byte`, `register_byte` and `window_byte`;
// Table 7-1). A value that it does not list is reported (30), and stored all the same.
#![tactic(auto)]

ghost use Rattle.std.specs.Prelude.{◌≡◌, eqb, ltb, ◌/◌, ◌%◌};
ghost use Rattle.listed.specs.Listed.{driver_listed, sources_listed, temperature_listed, plane_option, options_listed, has_code3, lut_listed, window_listed, listed};

use device::Registers;
use numbers::low_nibble;
use ram::{RAM_GATES, RAM_SOURCES};
use voltage::{gate_code_is_listed, source_millivolts, vcom_millivolts, vsl_millivolts};

// 0x18: the internal sensor; any other value selects the external one (48h at reset).
const INTERNAL_SENSOR: u8 = 0x80;

const EXTERNAL_SENSOR: u8 = 0x48;

// The fewest gates that 0x01 may scan.
const FEWEST_LINES: u16 = 300;

// Bits 9:8 of a ten-bit value alone.
fn two_bits(byte: u8) -> bool
    ensures { result ≡ ltb byte 4 }
{
    byte & 0b1111_1100 == 0
}

// 0x01. The scanned gates are `mux` + 1.
fn driver_output(mux: u16, index: u16, byte: u8) -> bool
    ensures { result ≡ driver_listed mux index byte }
{
    if index == 0 {
        return true;
    }
    if index == 1 {
        return two_bits(byte) & ((FEWEST_LINES - 1 <= mux) & (mux <= RAM_GATES - 1));
    }
    byte & 0b1111_1001 == 0
}

// 0x04.
fn sources(index: u16, byte: u8) -> bool
    ensures { result ≡ sources_listed index byte }
{
    if index < 2 {
        return source_millivolts(byte).is_some();
    }
    vsl_millivolts(byte).is_some()
}

// 0x1A: A[3:0] sits in the high nibble; the low one must be 0.
fn temperature(index: u16, byte: u8) -> bool
    ensures { result ≡ temperature_listed index byte }
{
    if index == 0 {
        return true;
    }
    low_nibble(byte) == 0
}

// A nibble of 0x21.
fn plane_option(nibble: u8) -> bool
    ensures { result ≡ plane_option nibble }
{
    (nibble == 0b0000) | (nibble == 0b0100) | (nibble == 0b1000)
}

// 0x21.
fn update_control_1(index: u16, byte: u8) -> bool
    ensures { result ≡ options_listed index byte }
{
    if index == 0 {
        return plane_option(byte >> 4) & plane_option(low_nibble(byte));
    }
    true
}

// 0x29: bits 7, 5 and 4 are 0, and bit 6 is 1.
fn vcom_sense(byte: u8) -> bool
    ensures { result ≡ eqb (byte / 16) 4 }
{
    (byte & 0xB0 == 0) & (byte & 0x40 != 0)
}

// Whether one of the byte's four codes is 3.
fn has_code_3(byte: u8) -> bool
    ensures { result ≡ has_code3 byte }
{
    let low = (byte & 0b11 == 0b11) | ((byte >> 2) & 0b11 == 0b11);
    low | ((byte >> 4) & 0b11 == 0b11) | ((byte >> 6) & 0b11 == 0b11)
}

// 0x32: LUT 4 (bytes 40 to 49) drives VCOM, for which code 3 is "N/A".
fn waveform_byte(index: u16, byte: u8) -> bool
    ensures { result ≡ lut_listed index byte }
{
    let vcom_lut = (40 <= index) & (index < 50);
    !(vcom_lut & has_code_3(byte))
}

// 0x44 or 0x45, with the window as the byte leaves it.
fn window_byte(start: u16, end: u16, last: u16, index: u16, byte: u8) -> bool
    ensures { result ≡ window_listed start end last index byte }
{
    if index % 2 == 0 {
        return true;
    }
    if index < 2 {
        return two_bits(byte) & (start <= last);
    }
    two_bits(byte) & (end <= last)
}

// 0x46 or 0x47: bit 3 is 0.
fn auto_write(byte: u8) -> bool
    ensures { result ≡ eqb (byte / 8 % 2) 0 }
{
    byte & 0b1000 == 0
}

// 0x11: the mode's three bits alone.
fn entry(byte: u8) -> bool
    ensures { result ≡ ltb byte 8 }
{
    byte & 0b1111_1000 == 0
}

// 0x3C: bits 3 and 2 are 0.
fn border(byte: u8) -> bool
    ensures { result ≡ eqb (byte / 4 % 4) 0 }
{
    byte & 0b1100 == 0
}

// 0x41: bit 0 alone.
fn read_ram(byte: u8) -> bool
    ensures { result ≡ ltb byte 2 }
{
    byte & 0b1111_1110 == 0
}

// Whether the datasheet lists `byte` as parameter `index` of `command`; `regs` are the registers after it was stored. Deep sleep
// (0x10) and the detections (0x14, 0x15) check their bytes where they act.
pub fn is_listed(regs: Registers, command: u8, index: u16, byte: u8) -> bool
    ensures { result ≡ listed regs command index byte }
{
    let window = regs.window;
    match command {
        0x01 => driver_output(regs.mux, index, byte),
        0x03 => gate_code_is_listed(byte),
        0x04 => sources(index, byte),
        0x11 => entry(byte),
        0x18 => (byte == INTERNAL_SENSOR) | (byte == EXTERNAL_SENSOR),
        0x1A => temperature(index, byte),
        0x21 => update_control_1(index, byte),
        0x29 => vcom_sense(byte),
        0x2C => vcom_millivolts(byte).is_some(),
        0x32 => waveform_byte(index, byte),
        0x3C => border(byte),
        0x41 => read_ram(byte),
        0x44 => window_byte(window.x_start, window.x_end, RAM_SOURCES - 1, index, byte),
        0x45 => window_byte(window.y_start, window.y_end, RAM_GATES - 1, index, byte),
        0x46 => auto_write(byte),
        0x47 => auto_write(byte),
        _ => true,
    }
}
