// What happens at the pins of the device, each event at its time: the kinds 1 to 5 of docs/replay-format.md, of which 1 to 4 are those of
// #102.
#![tactic(auto)]

ghost use Rattle.std.specs.Prelude.{◌≡◌};
ghost use Rattle.event.specs.Events.{event_of};

#[derive(Clone, Copy)]
pub enum Event {
    // A byte with D/C# low.
    Command(u64, u8),
    // A byte with D/C# high.
    Data(u64, u8),
    // A byte that the chip drives.
    Read(u64),
    // RES#: whether it is asserted.
    Reset(u64, bool),
    // Nothing but the clock moves.
    Advance(u64),
}

// The event of a kind's number; any but 1 to 4 moves the clock alone.
pub fn event_of(kind: u8, time: u64, value: u8) -> Event
    ensures { result ≡ event_of kind time value }
{
    match kind {
        1 => Event::Command(time, value),
        2 => Event::Data(time, value),
        3 => Event::Read(time),
        4 => Event::Reset(time, value != 0),
        _ => Event::Advance(time),
    }
}
