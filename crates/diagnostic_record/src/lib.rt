// A diagnostic as a record of 16 bytes (SCOPE, Log; the cases are those of diagnostic.rs).
#![tactic(auto)]

ghost use Rattle.std.specs.Prelude.{◌≡◌, ◌<◌};
ghost use Rattle.diagnostic.specs.Record.{record_byte, stage_number, fields_of, record_of};

use diagnostic::{DiagnosticKind, Fields};

// Byte k of a number, low byte first.
fn byte_at(x: u64, k: u64) -> u8
    requires { k < 8 }
    ensures { result ≡ record_byte x k }
{
    ((x >> (8 * k)) & 0xFF) as u8
}

fn of(number: u8, a: u8, b: u16, c: u16) -> Fields
    ensures { result ≡ record { number = number; a = a; b = b; c = c } }
{
    Fields { number, a, b, c }
}

fn fields(kind: DiagnosticKind) -> Fields
    ensures { result ≡ fields_of kind }
{
    match kind {
        DiagnosticKind::UnknownCommand { command } => of(21, command, 0, 0),
        DiagnosticKind::ReservedCommand { command } => of(22, command, 0, 0),
        DiagnosticKind::UnsupportedCommand { command } => of(23, command, 0, 0),
        DiagnosticKind::DataWithoutCommand { data } => of(24, data, 0, 0),
        DiagnosticKind::ExtraData { command } => of(25, command, 0, 0),
        DiagnosticKind::MissingData {
            command,
            expected,
            received,
        } => of(26, command, expected, received),
        DiagnosticKind::WhileBusy { command } => of(27, command, 0, 0),
        DiagnosticKind::WhileAsleep { command } => of(28, command, 0, 0),
        DiagnosticKind::WhileInReset { command } => of(29, command, 0, 0),
        DiagnosticKind::ReservedValue { command, value } => of(30, command, value as u16, 0),
        DiagnosticKind::RamOutOfRange { command, x, y } => of(31, command, x, y),
        DiagnosticKind::CounterOutsideWindow { command, x, y } => of(32, command, x, y),
        DiagnosticKind::WithoutClock { stage } => of(33, stage as u8, 0, 0),
        DiagnosticKind::WithoutAnalog { stage } => of(34, stage as u8, 0, 0),
        DiagnosticKind::NoWaveform { mode, temperature } => of(35, mode as u8, temperature, 0),
        DiagnosticKind::NoExternalSensor => of(36, 0, 0, 0),
        DiagnosticKind::RamPingPong => of(37, 0, 0, 0),
        DiagnosticKind::NothingToRead { command } => of(38, command, 0, 0),
        DiagnosticKind::ResetDuringDisplay => of(39, 0, 0, 0),
    }
}

// The 16 bytes of a record's fields.
fn bytes_of(time: u64, fields: Fields) -> [u8; 16]
    ensures { result ≡ record_of time fields }
{
    let b = fields.b as u64;
    let c = fields.c as u64;
    [
        byte_at(time, 0),
        byte_at(time, 1),
        byte_at(time, 2),
        byte_at(time, 3),
        byte_at(time, 4),
        byte_at(time, 5),
        byte_at(time, 6),
        byte_at(time, 7),
        fields.number,
        fields.a,
        byte_at(b, 0),
        byte_at(b, 1),
        byte_at(c, 0),
        byte_at(c, 1),
        0,
        0,
    ]
}

pub fn record_of(time: u64, kind: DiagnosticKind) -> [u8; 16]
    ensures { result ≡ record_of time (fields_of kind) }
{
    bytes_of(time, fields(kind))
}
