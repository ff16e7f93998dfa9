// What the read commands give of the registers (mod.rs, `read_byte`).
#![tactic(auto)]

ghost use Rattle.std.specs.Prelude.{◌≡◌, [], ◌∷◌};
ghost use Rattle.numbers.specs.Choice.{pick};
ghost use Rattle.registers.specs.Read.{answer, byte_of, temperature_bytes, option_bytes, status_byte, read_register};

use device::{Registers, Status};

// 0x1B: A[11:4], then A[3:0] in the high nibble: the register shifted into 16 bits, high byte first.
fn temperature(regs: Registers, index: u16) -> Option<u8>
    ensures { result ≡ byte_of (answer 2 (temperature_bytes regs)) index }
{
    let shifted = regs.temperature << 4;
    match index {
        0 => Some((shifted >> 8) as u8),
        1 => Some((shifted & 0xFF) as u8),
        _ => None,
    }
}

// 0x2D: A the VCOM OTP selection (0x37 byte A), B the VCOM register, C–G the display modes (0x37 bytes B–F), H–K the waveform
// version (0x37 bytes G–J).
fn display_option(regs: Registers, index: u16) -> Option<u8>
    ensures { result ≡ byte_of (answer 11 (option_bytes regs)) index }
{
    let option = regs.display_option;
    if index == 0 {
        return Some(option[0]);
    }
    if index == 1 {
        let lut = regs.lut;
        return Some(lut[109]);
    }
    if index < 11 {
        let i = index as usize - 1;
        return Some(option[i]);
    }
    None
}

// 0x2E: the ten bytes of 0x38.
fn user_id(regs: Registers, index: u16) -> Option<u8>
    ensures { result ≡ byte_of (answer 10 regs.user_id) index }
{
    let id = regs.user_id;
    if index < 10 {
        let i = index as usize;
        return Some(id[i]);
    }
    None
}

// A bit of the status byte.
fn flag(set: bool, bit: u8) -> u8
    ensures { result ≡ pick set bit 0 }
{
    if set { bit } else { 0 }
}

// 0x2F: one byte.
fn status_byte(status: Status, busy: bool, index: u16) -> Option<u8>
    ensures { result ≡ byte_of (answer 1 (status_byte status busy ∷ [])) index }
{
    if index == 0 {
        let hv_not_ready = flag(status.hv_not_ready, 0x20);
        let vci_low = flag(status.vci_low, 0x10);
        let operating = flag(busy, 0x04);
        return Some(hv_not_ready | vci_low | operating | 0x01);
    }
    None
}

// Data byte `index` of a read command, but for 0x27, which reads the RAM.
pub fn read_register(
    regs: Registers,
    status: Status,
    busy: bool,
    command: u8,
    index: u16,
) -> Option<u8>
    ensures { result ≡ read_register regs status busy command index }
{
    match command {
        0x1B => temperature(regs, index),
        0x2D => display_option(regs, index),
        0x2E => user_id(regs, index),
        0x2F => status_byte(status, busy, index),
        _ => None,
    }
}
