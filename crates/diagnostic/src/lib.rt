// What the controller reports: a firmware's use of the chip that the datasheet does not allow, leaves undefined, or the model does
// not carry out (diagnostic.rs), and what is kept beside the log of the reports (mod.rs).
#![tactic(auto)]

use config::DisplayMode;

// A stage of an operation that needs the clock or the analog supplies (0x22, 0x14, 0x15, 0x28).
#[derive(Clone, Copy)]
pub enum Stage {
    AnalogOn,
    TemperatureLoad,
    LutLoad,
    Display,
    HvReadyDetection,
    VciDetection,
    VcomSense,
}

// What happened.
#[derive(Clone, Copy)]
pub enum DiagnosticKind {
    // A command byte the SSD1677 does not have.
    UnknownCommand {
        command: u8,
    },
    // 0x3A or 0x3B, which the datasheet reserves.
    ReservedCommand {
        command: u8,
    },
    // A command of the datasheet whose effect the model does not carry out; its data are ignored.
    UnsupportedCommand {
        command: u8,
    },
    // A data byte with no command before it since the last reset.
    DataWithoutCommand {
        data: u8,
    },
    // More data bytes than the command takes; reported once per command.
    ExtraData {
        command: u8,
    },
    // Another command, or a reset, came before all parameters.
    MissingData {
        command: u8,
        expected: u16,
        received: u16,
    },
    // A command sent while BUSY is high: dropped with its data.
    WhileBusy {
        command: u8,
    },
    // A command sent in deep sleep: dropped with its data.
    WhileAsleep {
        command: u8,
    },
    // A command sent while RES# is low: dropped with its data.
    WhileInReset {
        command: u8,
    },
    // A parameter the datasheet reserves or does not list.
    ReservedValue {
        command: u8,
        value: u8,
    },
    // A RAM byte written or read where the counter lies past the RAM; reported once per command.
    RamOutOfRange {
        command: u8,
        x: u16,
        y: u16,
    },
    // A RAM write or read starting with the counter outside the window (datasheet §8.5).
    CounterOutsideWindow {
        command: u8,
        x: u16,
        y: u16,
    },
    // A stage skipped because the clock is off.
    WithoutClock {
        stage: Stage,
    },
    // A stage skipped because the analog supplies are off.
    WithoutAnalog {
        stage: Stage,
    },
    // No waveform of the OTP matches the mode and the temperature register: the display does not take place (datasheet §6.9).
    NoWaveform {
        mode: DisplayMode,
        temperature: u16,
    },
    // A temperature load from the external sensor with nothing connected.
    NoExternalSensor,
    // The RAM ping-pong of display mode 2 (0x37), not modelled.
    RamPingPong,
    // A data byte read with nothing to read.
    NothingToRead {
        command: u8,
    },
    // A hardware reset during the display.
    ResetDuringDisplay,
}

// What is kept beside the log: how many records it has, how many found no room, and whether the current command has already
// reported a reserved value.
#[derive(Clone, Copy)]
pub struct Journal {
    pub count: u16,
    pub dropped: u64,
    pub reserved_reported: bool,
}

// A record's fields (SCOPE, Log).
#[derive(Clone, Copy)]
pub struct Fields {
    pub number: u8,
    pub a: u8,
    pub b: u16,
    pub c: u16,
}

// The name of an unsupported command: its bytes, then zeros.
#[derive(Clone, Copy)]
pub struct Name {
    pub bytes: [u8; 44],
    pub length: usize,
}

// Records that the log has room for; past it they are counted, not kept.
pub const MAX_DIAGNOSTICS: u16 = 1024;

// The log: 1,024 records of 16 bytes (SCOPE, Log).
pub const LOG_BYTES: usize = 16_384;

pub type Log = [u8; LOG_BYTES];
