// What the numbers of a line stand for, kind by kind: nothing where one is too large for its field or a column that has to be 0 is not.
ghost use Rattle.std.specs.Prelude.{◌≡◌, ◌+◌, ◌^◌, eqb};
ghost use Rattle.line.specs.Fields.{bits_of, state_bits_of, longest_of};
ghost use Rattle.line.specs.Lines.{within, listed_as};
ghost use Rattle.event.specs.declared.Event.TheVariants.{Command, Data, Read, Reset, Advance};

use crate::{Line, fields};
use event::Event;

fn command(time: u64, value: u64) -> Option<Line>
    ensures { result ≡ within value 256 (Some (Line.Event (Command time value))) }
{
    if value < 256 {
        return Some(Line::Event(Event::Command(time, value as u8)));
    }
    None
}

fn data(time: u64, value: u64) -> Option<Line>
    ensures { result ≡ within value 256 (Some (Line.Event (Data time value))) }
{
    if value < 256 {
        return Some(Line::Event(Event::Data(time, value as u8)));
    }
    None
}

fn reset(time: u64, value: u64) -> Option<Line>
    ensures { result ≡ within value 2 (Some (Line.Event (Reset time (eqb value 1)))) }
{
    if value < 2 {
        return Some(Line::Event(Event::Reset(time, value == 1)));
    }
    None
}

// `line` where a column that has to be 0 is.
fn zero(column: u64, line: Option<Line>) -> Option<Line>
    ensures { result ≡ within column 1 line }
{
    if column < 1 {
        return line;
    }
    None
}

fn ambient(register: u64) -> Option<Line>
    ensures { result ≡ within register 65536 (Some (Line.Ambient register)) }
{
    if register < 65536 {
        return Some(Line::Ambient(register as u16));
    }
    None
}

fn case(value: u64) -> Option<Line>
    ensures { result ≡ within value 10000 (Some (Line.Case value)) }
{
    if value < 10000 {
        return Some(Line::Case(value as u16));
    }
    None
}

fn field(number: u64, value: u64) -> Option<Line>
    ensures { result ≡ within value 54 (within number (2 ^ bits_of value) (Some (Line.Field value number))) }
{
    if value < 54 {
        let place = value as usize;
        let most = fields::largest(place);
        if number <= most {
            return Some(Line::Field(place, number));
        }
        return None;
    }
    None
}

fn otp(byte: u64, place: u64) -> Option<Line>
    ensures { result ≡ within place 10000 (within byte 256 (Some (Line.Otp place byte))) }
{
    if place < 10000 {
        if byte < 256 {
            return Some(Line::Otp(place as usize, byte as u8));
        }
        return None;
    }
    None
}

fn lent(length: u64, buffer: u64) -> Option<Line>
    ensures { result ≡ within buffer 9 (within length (longest_of buffer + 1) (Some (Line.Lent buffer length))) }
{
    if buffer < 9 {
        let place = buffer as usize;
        let most = fields::longest(place);
        if length <= most {
            return Some(Line::Lent(place, length as usize));
        }
        return None;
    }
    None
}

fn state(number: u64, value: u64) -> Option<Line>
    ensures { result ≡ within value 32 (within number (2 ^ state_bits_of value) (Some (Line.State value number))) }
{
    if value < 32 {
        let place = value as usize;
        let most = fields::largest_of_state(place);
        if number <= most {
            return Some(Line::State(place, number));
        }
        return None;
    }
    None
}

pub(crate) fn listed(number: u64, kind: u64, value: u64) -> Option<Line>
    ensures { result ≡ listed_as number kind value }
{
    match kind {
        1 => command(number, value),
        2 => data(number, value),
        3 => zero(value, Some(Line::Event(Event::Read(number)))),
        4 => reset(number, value),
        5 => zero(value, Some(Line::Event(Event::Advance(number)))),
        6 => zero(value, Some(Line::Query(number))),
        7 => zero(number, zero(value, Some(Line::Dump))),
        8 => zero(value, Some(Line::Repeat(number))),
        9 => zero(value, ambient(number)),
        10 => zero(number, case(value)),
        11 => field(number, value),
        12 => otp(number, value),
        13 => zero(number, zero(value, Some(Line::Start))),
        14 => zero(number, zero(value, Some(Line::TakeDiagnostics))),
        15 => lent(number, value),
        16 => state(number, value),
        17 => zero(number, zero(value, Some(Line::Picture))),
        18 => zero(number, zero(value, Some(Line::Counts))),
        _ => None,
    }
}
