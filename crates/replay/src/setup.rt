// What lines have set for the next start, and the lengths that buffers are lent with.
ghost use Rattle.std.specs.Prelude.{◌<◌};

use crate::buffers::{self, Lengths};
use crate::fields::Fields;
use config::PanelGeometry;

// Places that a line can name.
const OTP: usize = 10000;

// Buffers that a line can name: the seven of the device without its counts, the table, and the counts.
const BUFFERS: usize = 9;

// The bytes of an OTP, and where the table in it ends: after the highest place set.
#[derive(Clone, Copy)]
pub struct Otp {
    bytes: [u8; OTP],
    end: usize,
}

#[derive(Drop)]
pub struct Setup {
    pub fields: Fields,
    pub otp: Otp,
    // A device keeps the table of its start, whatever lines set later.
    pub table: Otp,
    // A buffer that no line names is lent as long as the panel asks.
    lent: [Option<usize>; BUFFERS],
}

impl Otp {
    fn new() -> Otp {
        Otp {
            bytes: [0; OTP],
            end: 0,
        }
    }

    pub fn set(&mut self, place: usize, byte: u8) {
        if place < OTP {
            self.bytes[place] = byte;
            self.end = self.end.max(place + 1);
        }
    }

    pub fn front(&self, length: usize) -> &[u8] {
        let end = length.min(OTP);
        &self.bytes[..end]
    }
}

fn area(panel: PanelGeometry) -> usize {
    panel.height as usize * panel.width as usize
}

impl Setup {
    pub fn new() -> Setup {
        Setup {
            fields: Fields::new(),
            otp: Otp::new(),
            table: Otp::new(),
            lent: [None; BUFFERS],
        }
    }

    // A new case: configuration all 0 but for the frequency, OTP empty, buffers as long as panels ask.
    pub fn clear(&mut self) {
        self.fields = Fields::new();
        self.otp = Otp::new();
        self.lent = [None; BUFFERS];
    }

    pub fn lend(&mut self, buffer: usize, length: usize) {
        if buffer < BUFFERS {
            self.lent[buffer] = Some(length);
        }
    }

    pub fn keep_table(&mut self) {
        self.table = self.otp;
    }

    fn length(&self, buffer: usize, right: usize) -> usize
        requires { buffer < 9 }
    {
        self.lent[buffer].unwrap_or(right)
    }

    pub fn lengths(&self, panel: PanelGeometry) -> Lengths {
        let area = area(panel);
        Lengths {
            states: self.length(0, area),
            luts: self.length(1, area),
            pixels: self.length(2, area),
            black_white: self.length(3, ram::PLANE_BYTES),
            red: self.length(4, ram::PLANE_BYTES),
            gates: self.length(5, panel.height as usize),
            log: self.length(6, buffers::LOG - 1),
            table: self.length(7, self.table.end),
            counts: self.length(8, buffers::COUNTS - 1),
        }
    }
}
