// A line of docs/replay-format.md: 26 bytes and LF, of which kinds 1 to 4 are those of #102.
#![tactic(auto)]

use event::Event;

mod columns;
mod fields;
mod listed;

ghost use Rattle.std.specs.Prelude.{◌≡◌};
ghost use Rattle.line.specs.Lines.{line_of};

// The bytes of a line, LF among them.
pub const LINE_BYTES: usize = 27;

// What a line asks for.
#[derive(Clone, Copy)]
pub enum Line {
    Event(Event),
    // is_busy and busy_pin at a time.
    Query(u64),
    Dump,
    // How often the next data or read line is made.
    Repeat(u64),
    Ambient(u16),
    // A new case.
    Case(u16),
    // A field of the configuration, and its number.
    Field(usize, u64),
    // A place of the OTP, and its byte.
    Otp(usize, u8),
    Start,
    TakeDiagnostics,
    // A buffer, and the length that it is lent with.
    Lent(usize, usize),
    // A field of the state that is handed in, and its number.
    State(usize, u64),
    // The panel's picture as text.
    Picture,
    // The counts of greys, and the entry of the last waveform loaded.
    Counts,
}

// What a line asks for, if any of these: else the run ends.
pub fn parse(line: &[u8]) -> Option<Line>
    ensures { result ≡ line_of line.now }
{
    let columns = columns::read(line)?;
    listed::listed(columns.number, columns.kind, columns.value)
}
