// A state with one part put back.
ghost use Rattle.std.specs.Prelude.{◌≡◌};
ghost use Rattle.device.specs.Parts.{with_now, with_config, with_regs, with_bus, with_status, with_display, with_journal, with_panel_and_display, with_powers, with_slept, with_activated, with_current, with_until, with_loaded, with_counter, with_pointed};

use crate::{Bus, Current, Registers, Ssd1677, Status};
use config::Ssd1677Config;
use diagnostic::Journal;
use panel::{Display, Panel};
use ram::Counter;

// Another latest instant.
pub fn set_now(state: Ssd1677, latest: u64) -> Ssd1677
    ensures { result ≡ with_now state latest }
{
    let mut next = state;
    next.now = latest;
    next
}

// Another configuration.
pub fn set_config(state: Ssd1677, config: Ssd1677Config) -> Ssd1677
    ensures { result ≡ with_config state config }
{
    let mut next = state;
    next.config = config;
    next
}

// Other registers.
pub fn set_regs(state: Ssd1677, regs: Registers) -> Ssd1677
    ensures { result ≡ with_regs state regs }
{
    let mut next = state;
    next.regs = regs;
    next
}

// Another bus.
pub fn set_bus(state: Ssd1677, bus: Bus) -> Ssd1677
    ensures { result ≡ with_bus state bus }
{
    let mut next = state;
    next.bus = bus;
    next
}

// Other detection flags.
pub fn set_status(state: Ssd1677, status: Status) -> Ssd1677
    ensures { result ≡ with_status state status }
{
    let mut next = state;
    next.status = status;
    next
}

// Another display, or none.
pub fn set_display(state: Ssd1677, display: Option<Display>) -> Ssd1677
    ensures { result ≡ with_display state display }
{
    let mut next = state;
    next.display = display;
    next
}

// Another journal.
pub fn set_journal(state: Ssd1677, journal: Journal) -> Ssd1677
    ensures { result ≡ with_journal state journal }
{
    let mut next = state;
    next.journal = journal;
    next
}

// The glass and the display: an end and a cut change both.
pub fn set_glass(state: Ssd1677, panel: Panel, display: Option<Display>) -> Ssd1677
    ensures { result ≡ with_panel_and_display state panel display }
{
    let mut driven = state;
    driven.panel = panel;
    driven.display = display;
    driven
}

// What a reset restores.
pub fn set_powers(
    state: Ssd1677,
    regs: Registers,
    clock: bool,
    analog: bool,
    status: Status,
) -> Ssd1677
    ensures { result ≡ with_powers state regs clock analog status }
{
    let mut restored = state;
    restored.regs = regs;
    restored.clock = clock;
    restored.analog = analog;
    restored.status = status;
    restored
}

// What deep sleep changes.
pub fn set_slept(state: Ssd1677, bus: Bus, clock: bool, analog: bool) -> Ssd1677
    ensures { result ≡ with_slept state bus clock analog }
{
    let mut asleep = state;
    asleep.bus = bus;
    asleep.clock = clock;
    asleep.analog = analog;
    asleep
}

// What the stages of an activation change.
pub fn set_activated(
    state: Ssd1677,
    regs: Registers,
    bus: Bus,
    clock: bool,
    analog: bool,
    display: Option<Display>,
    journal: Journal,
) -> Ssd1677
    ensures { result ≡ with_activated state regs bus clock analog display journal }
{
    let mut activated = state;
    activated.regs = regs;
    activated.bus = bus;
    activated.clock = clock;
    activated.analog = analog;
    activated.display = display;
    activated.journal = journal;
    activated
}

// Another current command.
pub fn set_current(bus: Bus, current: Current) -> Bus
    ensures { result ≡ with_current bus current }
{
    let power = bus.power;
    let busy_until = bus.busy_until;
    Bus {
        power,
        current,
        busy_until,
    }
}

// Another end of BUSY.
pub fn set_until(bus: Bus, busy_until: Option<u64>) -> Bus
    ensures { result ≡ with_until bus busy_until }
{
    let power = bus.power;
    let current = bus.current;
    Bus {
        power,
        current,
        busy_until,
    }
}

// What the stages of an activation load into the registers.
pub fn set_loaded(regs: Registers, temperature: u16, lut: [u8; 112], waveform: u8) -> Registers
    ensures { result ≡ with_loaded regs temperature lut waveform }
{
    let mut loaded = regs;
    loaded.temperature = temperature;
    loaded.lut = lut;
    loaded.waveform = waveform;
    loaded
}

// Another address counter.
pub fn set_counter(regs: Registers, counter: Counter) -> Registers
    ensures { result ≡ with_counter regs counter }
{
    let mut next = regs;
    next.counter = counter;
    next
}

// What a byte of RAM data changes: no other register is touched.
pub fn set_pointed(state: Ssd1677, counter: Counter, bus: Bus) -> Ssd1677
    ensures { result ≡ with_pointed state counter bus }
{
    let mut pointed = state;
    pointed.regs.counter.x = counter.x;
    pointed.regs.counter.y = counter.y;
    pointed.bus = bus;
    pointed
}
