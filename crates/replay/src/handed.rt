// A state with one of the fields changed that 13 tests, as docs/replay-format.md numbers them.
use device::{Bus, Current, Registers, Ssd1677};

fn word(n: u64) -> u16 {
    (n % 65536) as u16
}

fn byte(n: u64) -> u8 {
    (n % 256) as u8
}

fn registers(regs: Registers, field: usize, n: u64) -> Registers {
    let mut next = regs;
    match field {
        3 => next.mux = word(n),
        4 => next.window.x_start = word(n),
        5 => next.window.x_end = word(n),
        6 => next.window.y_start = word(n),
        7 => next.window.y_end = word(n),
        8 => next.counter.x = word(n),
        9 => next.counter.y = word(n),
        10 => next.temperature = word(n),
        _ => next.entry.0 = byte(n),
    }
    next
}

// The active command's byte becomes another; its kind stays.
fn current(bus: Bus, command: u8) -> Bus {
    let mut next = bus;
    if let Current::Active(active) = bus.current {
        let mut renamed = active;
        renamed.command = command;
        next.current = Current::Active(renamed);
    }
    next
}

// A number from 2^63 on stands for a negative swing.
pub fn with(device: Ssd1677, field: usize, n: u64) -> Ssd1677 {
    let mut next = device;
    match field {
        0 => next.config.panel.width = word(n),
        1 => next.config.panel.height = word(n),
        2 => next.config.panel.first_source = word(n),
        11 => next.journal.count = word(n),
        3..=12 => next.regs = registers(device.regs, field, n),
        13 => next.bus = current(device.bus, byte(n)),
        14 => next.panel.swing = n.cast_signed(),
        15..=30 => next.config.timing.frame_period[field - 15] = n,
        31 => next.config.frequency = (n % 4294967296) as u32,
        _ => (),
    }
    next
}
