// What a parameter byte stores in the registers (mod.rs; datasheet Table 7-1).
#![tactic(auto)]

ghost use Rattle.std.specs.Prelude.{◌≡◌};
ghost use Rattle.registers.specs.Store.{stored};

use device::Registers;
use ram::{Counter, Entry, Window, ten_bits};

mod field;

// The registers after parameter byte `index` of `command`. The booster soft-start (0x0C) and the VCOM glitch control (0x2B) shape
// currents and edges the model has none of: they store nothing, nor do the commands that act at once (0x10, 0x14, 0x15, 0x46, 0x47).
// A byte of 0x32 clears the record of the waveform loaded, to 255; the voltages' commands leave it (#108).
pub fn store(regs: Registers, command: u8, index: u16, byte: u8) -> Registers
    ensures { result ≡ stored regs command index byte }
{
    let window = regs.window;
    let counter = regs.counter;
    match command {
        0x01 => Registers {
            mux: field::mux(regs.mux, index, byte),
            gate_scan: field::gate_scan(regs.gate_scan, index, byte),
            ..regs
        },
        0x03 => field::waveform_byte(regs, 105, byte, regs.waveform),
        // VSH1, VSH2, then VSL.
        0x04 => field::waveform_byte(regs, 106 + index.min(2), byte, regs.waveform),
        // The data-entry mode.
        0x11 => Registers {
            entry: Entry(byte & 0b111),
            ..regs
        },
        // Which temperature sensor is read.
        0x18 => Registers {
            sensor: byte,
            ..regs
        },
        0x1A => Registers {
            temperature: field::temperature(regs.temperature, index, byte),
            ..regs
        },
        // The RAM options, and a second byte some boards send.
        0x21 => Registers {
            update_control_1: field::two_bytes(regs.update_control_1, index, byte),
            ..regs
        },
        // The stages that 0x20 runs.
        0x22 => Registers {
            update_control_2: byte,
            ..regs
        },
        // How long VCOM is sensed.
        0x29 => Registers {
            vcom_sense: byte,
            ..regs
        },
        0x2C => field::waveform_byte(regs, 109, byte, regs.waveform),
        0x32 => field::waveform_byte(regs, index, byte, 255),
        // The display option.
        0x37 => Registers {
            display_option: field::ten_bytes(regs.display_option, index, byte),
            ..regs
        },
        // The user's ID.
        0x38 => Registers {
            user_id: field::ten_bytes(regs.user_id, index, byte),
            ..regs
        },
        // What drives the border.
        0x3C => Registers {
            border: byte,
            ..regs
        },
        // Which plane 0x27 reads.
        0x41 => Registers {
            read_ram_red: byte & 1 != 0,
            ..regs
        },
        // X start low, start high, end low, end high.
        0x44 => Registers {
            window: Window {
                x_start: field::start(window.x_start, index, byte),
                x_end: field::end(window.x_end, index, byte),
                ..window
            },
            ..regs
        },
        // Y start low, start high, end low, end high.
        0x45 => Registers {
            window: Window {
                y_start: field::start(window.y_start, index, byte),
                y_end: field::end(window.y_end, index, byte),
                ..window
            },
            ..regs
        },
        // The counter's X, low then high.
        0x4E => Registers {
            counter: Counter {
                x: ten_bits(counter.x, index, byte),
                ..counter
            },
            ..regs
        },
        // The counter's Y, low then high.
        0x4F => Registers {
            counter: Counter {
                y: ten_bits(counter.y, index, byte),
                ..counter
            },
            ..regs
        },
        _ => regs,
    }
}
