// The state of an SSD1677 but for its lent buffers: registers, bus, supplies, status, glass, display and journal (mod.rs).
//
// The parts are nested by who changes them, so that a function takes and returns only its part; the functions of `part` put one
// back.
#![tactic(auto)]

ghost use Rattle.std.specs.Prelude.{◌≡◌};
ghost use Rattle.device.specs.Kinds.{bounds_of};

use config::{GateScan, Ssd1677Config};
use diagnostic::Journal;
use panel::{Display, Panel};
use ram::{Counter, Entry, Window};

pub mod part;

// How many parameter bytes a command takes.
#[derive(Clone, Copy, PartialEq, Eq)]
pub enum Params {
    Exactly(u16),
    Between(u16, u16),
    // RAM data, as many bytes as written.
    Stream,
}

// What the model does with a command.
#[derive(Clone, Copy, PartialEq, Eq)]
pub enum Kind {
    Write(Params),
    // A command whose data bytes are read by the MCU.
    Read,
    // Accepted without effect.
    Unsupported,
    Reserved,
}

// The fewest and the most parameter bytes of a command.
#[derive(Clone, Copy)]
pub struct Bounds {
    pub least: u16,
    pub most: u16,
}

impl Kind {
    // How many parameter bytes a command of the kind takes; RAM data have no bounds.
    pub fn bounds(self) -> Option<Bounds>
        ensures { result ≡ bounds_of self }
    {
        match self {
            Kind::Write(Params::Exactly(count)) => Some(Bounds {
                least: count,
                most: count,
            }),
            Kind::Write(Params::Between(least, most)) => Some(Bounds { least, most }),
            Kind::Write(Params::Stream) => None,
            Kind::Read | Kind::Unsupported | Kind::Reserved => Some(Bounds { least: 0, most: 0 }),
        }
    }
}

// The registers (datasheet Table 7-1).
#[derive(Clone, Copy)]
pub struct Registers {
    // MUX[9:0]: the scanned gates are mux + 1.
    pub mux: u16,
    pub gate_scan: GateScan,
    // The LUT register with its voltages (0x32, 0x03, 0x04, 0x2C), or the setting the last LUT load copied.
    pub lut: [u8; 112],
    pub entry: Entry,
    pub window: Window,
    pub counter: Counter,
    // 0x21: the RAM options, and a second byte some boards send, stored only.
    pub update_control_1: [u8; 2],
    pub update_control_2: u8,
    pub sensor: u8,
    // The twelve-bit temperature register.
    pub temperature: u16,
    // 0x29.
    pub vcom_sense: u8,
    pub display_option: [u8; 10],
    pub user_id: [u8; 10],
    pub border: u8,
    pub read_ram_red: bool,
    // The OTP entry of the last waveform loaded, 255 for none (#108).
    pub waveform: u8,
}

// The supply and reset state of the chip.
#[derive(Clone, Copy)]
pub enum Power {
    Running,
    // 0x10 entered deep sleep: BUSY high, every command dropped, until a hardware reset.
    Asleep,
    // RES# is low.
    InReset,
}

// The command that data bytes belong to, with what was written and read of it.
#[derive(Clone, Copy)]
pub struct Active {
    pub command: u8,
    pub kind: Kind,
    // Data bytes written and read; both stop at 65,535.
    pub received: u16,
    pub read: u16,
    // One report of each kind per command.
    pub extra_reported: bool,
    pub range_reported: bool,
    pub nothing_reported: bool,
}

#[derive(Clone, Copy)]
pub enum Current {
    // No command since the last reset: a data byte is reported once.
    Idle,
    // A dropped or unknown command, or a data byte already reported: data go nowhere.
    Ignoring,
    Active(Active),
}

// What the bus sees.
#[derive(Clone, Copy)]
pub struct Bus {
    pub power: Power,
    pub current: Current,
    pub busy_until: Option<u64>,
}

// The detection flags of the status byte (0x2F), cleared by a reset.
#[derive(Clone, Copy)]
pub struct Status {
    // Bit 5: the HV ready detection found the supplies not ready.
    pub hv_not_ready: bool,
    // Bit 4: the VCI detection found VCI below the level.
    pub vci_low: bool,
}

// An SSD1677 and the glass it drives.
#[derive(Clone, Copy)]
pub struct Ssd1677 {
    pub config: Ssd1677Config,
    // The latest instant seen. It and every other moment are cycles of the configuration's time base.
    pub now: u64,
    pub regs: Registers,
    pub bus: Bus,
    pub clock: bool,
    pub analog: bool,
    pub status: Status,
    pub panel: Panel,
    // The display in progress; an end, a cut or a drop leaves none.
    pub display: Option<Display>,
    pub journal: Journal,
}
