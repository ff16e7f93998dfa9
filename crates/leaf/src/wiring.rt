// Gates and rows, and the LUT of every pixel.
ghost use Rattle.std.specs.Prelude.{◌≡◌, ◌*◌};

use crate::answers::Answers;
use crate::question::Question;
use crate::{configuration, planes};
use config::{GateScan, PanelGeometry};
use scan::{PlaneOption, Scan};

fn ram_row_of_gate(answers: &mut Answers, question: &Question) {
    let order = GateScan {
        sm: question.truth(1),
        gd: question.truth(2),
    };
    let row = scan::ram_row_of_gate(question.word(0), order, question.word(3));
    answers.option(row.map(|row| u64::from(row)));
}

// A panel of width 1.
fn column(question: &Question) -> PanelGeometry {
    PanelGeometry {
        width: 1,
        height: question.word(0),
        first_source: 0,
        columns_reversed: false,
        native_scan: GateScan {
            sm: question.truth(1),
            gd: question.truth(2),
        },
        rows_reversed: question.truth(3),
    }
}

// The gates of the rows of a panel, and what is no row's.
fn gates_of(geometry: PanelGeometry) -> [u16; config::RAM_GATES as usize] {
    let mut gates = [0u16; config::RAM_GATES as usize];
    scan::gate_of_row(&mut gates, geometry);
    gates
}

fn gate_of_row(answers: &mut Answers, question: &Question) {
    let gates = gates_of(column(question));
    let gate = gates.get(question.word(4) as usize).copied().unwrap_or(0);
    answers.number(u64::from(gate));
}

fn hash_of(gates: &[u16], height: usize) -> u64 {
    if height <= gates.len() {
        hash::of_words(&gates[..height])
    } else {
        0
    }
}

fn gates(answers: &mut Answers, question: &Question) {
    let geometry = column(question);
    answers.number(hash_of(&gates_of(geometry), geometry.height as usize));
}

// A panel, and the scan and the planes that fix its LUTs.
#[derive(Clone, Copy)]
pub struct Refresh {
    pub geometry: PanelGeometry,
    pub scan: Scan,
    // The seed of the bytes of the planes.
    pub seed: u32,
}

impl Refresh {
    // Pixels of the panel.
    pub fn area(&self) -> usize
        ensures { result ≡ self.now.geometry.height * self.now.geometry.width }
    {
        self.geometry.height as usize * self.geometry.width as usize
    }

    // Fixes the LUTs where the buffers are as long as they have to be.
    fn start(&self, luts: &mut [u8], gates: &[u16], red: &[u8], black_white: &[u8]) {
        let sources = self.geometry.first_source as usize + self.geometry.width as usize;
        if luts.len() == self.area()
            && gates.len() == self.geometry.height as usize
            && red.len() == ram::PLANE_BYTES
            && black_white.len() == ram::PLANE_BYTES
            && sources <= 960
        {
            scan::start(luts, gates, red, black_white, self.geometry, self.scan);
        }
    }

    // Fixes the LUTs under the planes of the seed.
    pub fn fill(&self, luts: &mut [u8]) {
        let mut red = [0u8; ram::PLANE_BYTES];
        let mut black_white = [0u8; ram::PLANE_BYTES];
        planes::fill(&mut black_white, self.seed);
        planes::fill(&mut red, self.seed.wrapping_add(1));
        let gates = gates_of(self.geometry);
        let height = self.geometry.height as usize;
        if height <= gates.len() {
            self.start(luts, &gates[..height], &red, &black_white);
        }
    }

    // The hash of the LUTs, in a buffer that they may be too many for.
    fn hash_in(&self, luts: &mut [u8]) -> u64 {
        let pixels = self.area();
        if luts.len() < pixels || config::RAM_GATES < self.geometry.height {
            return 0;
        }
        let lent = &mut luts[..pixels];
        self.fill(&mut *lent);
        hash::of_bytes(lent)
    }

    fn small(&self) -> u64 {
        let mut luts = [0u8; 1024];
        self.hash_in(&mut luts)
    }

    fn large(&self) -> u64 {
        let mut luts = [0u8; 652800];
        self.hash_in(&mut luts)
    }

    // The LUT of a panel of one pixel whose planes hold `byte` throughout.
    fn one_pixel(&self, byte: u8) -> u8 {
        let plane = [byte; ram::PLANE_BYTES];
        let mut luts = [0u8; 1];
        self.start(&mut luts, &[0u16], &plane, &plane);
        luts[0]
    }
}

fn scan_of(question: &Question) -> Scan {
    Scan {
        lines: question.word(7),
        order: GateScan {
            sm: question.truth(8),
            gd: question.truth(9),
        },
        red: PlaneOption::from_nibble(question.byte(10)),
        black_white: PlaneOption::from_nibble(question.byte(11)),
    }
}

fn panel_start(answers: &mut Answers, question: &Question) {
    let refresh = Refresh {
        geometry: configuration::geometry(question),
        scan: scan_of(question),
        seed: question.double_word(12),
    };
    answers.number(if refresh.area() <= 1024 {
        refresh.small()
    } else {
        refresh.large()
    });
}

// What an option makes of a bit: the LUT of a pixel whose red bit reads as 0.
fn applied(option: PlaneOption, bit: bool) -> u8 {
    let refresh = Refresh {
        geometry: PanelGeometry {
            width: 1,
            height: 1,
            first_source: 0,
            columns_reversed: false,
            native_scan: GateScan::default(),
            rows_reversed: false,
        },
        scan: Scan {
            lines: config::RAM_GATES,
            order: GateScan::default(),
            red: PlaneOption::Zero,
            black_white: option,
        },
        seed: 0,
    };
    refresh.one_pixel(if bit { 0xFF } else { 0x00 })
}

fn plane_option(answers: &mut Answers, question: &Question) {
    let option = PlaneOption::from_nibble(question.byte(0));
    answers.number(option as u64);
    answers.number(u64::from(applied(option, question.truth(1))));
}

pub fn answer(answers: &mut Answers, question: &Question) -> bool {
    if question.asks(b"ram_row_of_gate", 4) {
        ram_row_of_gate(answers, question);
    } else if question.asks(b"gate_of_row", 5) {
        gate_of_row(answers, question);
    } else if question.asks(b"gates", 4) {
        gates(answers, question);
    } else if question.asks(b"panel_start", 13) {
        panel_start(answers, question);
    } else if question.asks(b"plane_option", 2) {
        plane_option(answers, question);
    } else {
        return false;
    }
    true
}
