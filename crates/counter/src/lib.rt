// The RAM's window, data-entry mode and address counter (datasheet §8.2–8.5; ram.rs).
//
// An X address is a source, a pixel. The counter moves by one byte (eight pixels) in X and by one row in Y, in the directions of the
// data-entry mode, and wraps to the start of the window past its end.
#![tactic(auto)]

ghost use Rattle.std.specs.Prelude.{◌≡◌};
ghost use Rattle.numbers.specs.Choice.{bit_of};
ghost use Rattle.counter.specs.Counter.{reset_window, reset_entry, between, within_of, advanced_of};
ghost use Rattle.counter.specs.Registers.{ten_bits};

use axis::Axis;
use config::{RAM_GATES, RAM_SOURCES};

mod axis;

// The window of 0x44 and 0x45, in pixels and rows, as written: with a decrementing direction the start is above the end.
#[derive(Clone, Copy)]
pub struct Window {
    pub x_start: u16,
    pub x_end: u16,
    pub y_start: u16,
    pub y_end: u16,
}

impl Window {
    // The reset value: the whole RAM, 000h–3BFh by 000h–2A7h.
    pub const RESET: Window = Window {
        x_start: 0,
        x_end: RAM_SOURCES - 1,
        y_start: 0,
        y_end: RAM_GATES - 1,
    };
}

impl Default for Window {
    ghost is_default = { λ window. window ≡ reset_window };

    fn default() -> Window {
        Window::RESET
    }
}

// The data-entry mode of 0x11: ID0 X increments, ID1 Y increments, AM the counter moves in Y.
#[derive(Clone, Copy)]
pub struct Entry(pub u8);

impl Entry {
    // The reset value 03h: X and Y increment, the counter moves in X.
    pub const RESET: Entry = Entry(0x03);

    fn x_increments(self) -> bool
        ensures { result ≡ bit_of self.0 0 }
    {
        self.0 & 0b001 != 0
    }

    fn y_increments(self) -> bool
        ensures { result ≡ bit_of self.0 1 }
    {
        self.0 & 0b010 != 0
    }

    fn y_first(self) -> bool
        ensures { result ≡ bit_of self.0 2 }
    {
        self.0 & 0b100 != 0
    }
}

impl Default for Entry {
    ghost is_default = { λ entry. entry ≡ reset_entry };

    fn default() -> Entry {
        Entry::RESET
    }
}

// Whether `at` lies between `a` and `b`, whatever their order.
fn inside(at: u16, a: u16, b: u16) -> bool
    ensures { result ≡ between at a b }
{
    if a <= b {
        (a <= at) & (at <= b)
    } else {
        (b <= at) & (at <= a)
    }
}

// The address counter of 0x4E and 0x4F.
#[derive(Clone, Copy)]
pub struct Counter {
    pub x: u16,
    pub y: u16,
}

impl Counter {
    // Whether the counter lies inside `window` (between start and end, whatever their order).
    pub fn within(self, window: Window) -> bool
        ensures { result ≡ within_of self window }
    {
        let x = inside(self.x / 8, window.x_start / 8, window.x_end / 8);
        let y = inside(self.y, window.y_start, window.y_end);
        x & y
    }

    // Where the counter goes after a byte of data, whatever the counter, window and mode. One axis moves, and the other only where
    // the first is past its end.
    #[tactic(auto, unfolding(crate::specs::Counter::advanced_of))]
    pub fn advanced(self, window: Window, entry: Entry) -> Counter
        ensures { result ≡ advanced_of self window entry }
    {
        let columns = Axis {
            at: self.x / 8,
            end: window.x_end / 8,
            increments: entry.x_increments(),
        };
        let rows = Axis {
            at: self.y,
            end: window.y_end,
            increments: entry.y_increments(),
        };
        if entry.y_first() {
            match rows.step() {
                Some(row) => Counter { x: self.x, y: row },
                None => {
                    let x = match columns.step() {
                        Some(column) => column * 8,
                        None => window.x_start,
                    };
                    Counter {
                        x,
                        y: window.y_start,
                    }
                }
            }
        } else {
            match columns.step() {
                Some(column) => Counter {
                    x: column * 8,
                    y: self.y,
                },
                None => Counter {
                    x: window.x_start,
                    y: rows.step().unwrap_or(window.y_start),
                },
            }
        }
    }
}

// A 10-bit register written low byte first; `index` is the byte's place in its value (mod.rs).
pub fn ten_bits(value: u16, index: u16, byte: u8) -> u16
    ensures { result ≡ ten_bits value index byte }
{
    if index == 0 {
        value & 0x300 | byte as u16
    } else {
        value & 0xFF | ((byte & 0b11) as u16) << 8
    }
}
