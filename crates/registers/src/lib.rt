// The registers (mod.rs; datasheet Table 7-1): their reset values. What a parameter byte stores in them and what the read commands give of
// them is defined here too; the functions are `store` and `read_register`.
#![tactic(auto)]

ghost use Rattle.std.specs.Prelude.{◌≡◌};
ghost use Rattle.registers.specs.Reset.{reset_of};

use config::GateScan;
use device::Registers;
use ram::{Counter, Entry, Window};

// The registers at their reset values. SW reset, hardware reset and power-on all restore them.
pub fn reset(user_id: [u8; 10]) -> Registers
    ensures { result ≡ reset_of user_id }
{
    let mut lut = [0u8; 112];
    // VSH1 41h, VSH2 A8h, VSL 32h, VGH and VCOM 00h.
    lut[106] = 0x41;
    lut[107] = 0xA8;
    lut[108] = 0x32;
    let gate_scan = GateScan::default();
    let entry = Entry::default();
    let window = Window::default();
    let counter = Counter { x: 0, y: 0 };
    Registers {
        mux: 0x2A7,
        gate_scan,
        lut,
        entry,
        window,
        counter,
        update_control_1: [0u8; 2],
        update_control_2: 0xFF,
        sensor: 0x48,
        temperature: 0x7FF,
        vcom_sense: 0x49,
        display_option: [0u8; 10],
        user_id,
        border: 0xC0,
        read_ram_red: false,
        waveform: 255,
    }
}
