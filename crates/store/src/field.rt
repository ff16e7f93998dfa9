// What a byte stores in one register (mod.rs, `driver_output`, `waveform_byte`, `register_byte` and `window_byte`). Where an array
// ends, nothing is stored past it; the bus hands on no index that a command does not have.
ghost use Rattle.std.specs.Prelude.{◌≡◌, min, set};
ghost use Rattle.device.specs.Parts.{with_loaded};
ghost use Rattle.registers.specs.Store.{bytes_put, mux_after, gate_scan_after, temperature_after, start_after, end_after};

use config::GateScan;
use device::Registers;
use ram::ten_bits;

// 0x37 and 0x38: a byte put at its place of ten.
pub fn ten_bytes(held: [u8; 10], index: u16, byte: u8) -> [u8; 10]
    ensures { result ≡ bytes_put 10 held index byte }
{
    let mut next = held;
    if index < 10 {
        let i = index as usize;
        next[i] = byte;
        return next;
    }
    next
}

// 0x21: the first place for byte 0, the second for any other.
pub fn two_bytes(held: [u8; 2], index: u16, byte: u8) -> [u8; 2]
    ensures { result ≡ set held (min index 1) byte }
{
    let mut next = held;
    if index == 0 {
        next[0] = byte;
        return next;
    }
    next[1] = byte;
    next
}

// 0x01: MUX low, MUX high.
pub fn mux(held: u16, index: u16, byte: u8) -> u16
    ensures { result ≡ mux_after held index byte }
{
    if index < 2 {
        return ten_bits(held, index, byte);
    }
    held
}

// 0x01: the gate-scan bits after the two of MUX (TB = 1 is reserved and read as 0).
pub fn gate_scan(held: GateScan, index: u16, byte: u8) -> GateScan
    ensures { result ≡ gate_scan_after held index byte }
{
    if index < 2 {
        return held;
    }
    GateScan {
        sm: byte & 0b010 != 0,
        gd: byte & 0b100 != 0,
    }
}

// A byte of the LUT register: 0x32 (VS, TP, RP, frame rates), 0x03 (VGH), 0x04 (VSH1, VSH2, VSL), 0x2C (DCVCOM). With it the record of
// the waveform loaded, which a byte of 0x32 clears.
pub fn waveform_byte(regs: Registers, at: u16, byte: u8, waveform: u8) -> Registers
    ensures { result ≡ with_loaded regs regs.temperature (bytes_put 112 regs.lut at byte) waveform }
{
    let mut next = regs;
    next.waveform = waveform;
    if at < 112 {
        let i = at as usize;
        next.lut[i] = byte;
        return next;
    }
    next
}

// 0x1A: A[11:4], then A[3:0] in the high nibble.
pub fn temperature(held: u16, index: u16, byte: u8) -> u16
    ensures { result ≡ temperature_after held index byte }
{
    if index == 0 {
        return held & 0x00F | (byte as u16) << 4;
    }
    held & 0xFF0 | (byte >> 4) as u16
}

// 0x44 and 0x45: where the window starts along an axis, low then high; the two bytes after them are the end's.
pub fn start(held: u16, index: u16, byte: u8) -> u16
    ensures { result ≡ start_after held index byte }
{
    if index < 2 {
        return ten_bits(held, index % 2, byte);
    }
    held
}

// 0x44 and 0x45: where the window ends, low then high after the start's two.
pub fn end(held: u16, index: u16, byte: u8) -> u16
    ensures { result ≡ end_after held index byte }
{
    if index < 2 {
        return held;
    }
    ten_bits(held, index % 2, byte)
}
