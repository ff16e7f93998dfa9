// The configuration of docs/replay-format.md's fields.
use config::{GateScan, PanelGeometry, Ssd1677Config, Ssd1677Timing};
use glass::{Optics, Provenance};

// Fields that a line can name.
const FIELDS: usize = 54;

// The field of the frequency, and what it is before a line sets it: a cycle a nanosecond, as before there was such a field (#101).
const FREQUENCY: usize = 53;

const GIGAHERTZ: u64 = 1_000_000_000;

#[derive(Clone, Copy)]
pub struct Fields {
    numbers: [u64; FIELDS],
}

impl Fields {
    // The fields of a new case.
    pub fn new() -> Fields {
        let mut numbers = [0u64; FIELDS];
        numbers[FREQUENCY] = GIGAHERTZ;
        Fields { numbers }
    }

    pub fn set(&mut self, field: usize, n: u64) {
        if field < FIELDS {
            self.numbers[field] = n;
        }
    }

    pub fn config(&self) -> Ssd1677Config {
        Ssd1677Config {
            panel: self.geometry(),
            optics: self.optics(),
            timing: self.timing(),
            busy_active_high: self.truth(38),
            ambient: self.word(39),
            external_sensor: self.external_sensor(),
            vci_millivolts: self.double_word(42),
            user_id: self.user_id(),
            frequency: self.double_word(FREQUENCY),
        }
    }

    fn number(&self, i: usize) -> u64 {
        self.numbers.get(i).copied().unwrap_or(0)
    }

    fn truth(&self, i: usize) -> bool {
        self.number(i) != 0
    }

    fn byte(&self, i: usize) -> u8 {
        (self.number(i) % 256) as u8
    }

    fn word(&self, i: usize) -> u16 {
        (self.number(i) % 65536) as u16
    }

    fn double_word(&self, i: usize) -> u32 {
        (self.number(i) % 4294967296) as u32
    }

    fn provenance(&self, i: usize) -> Provenance {
        if self.truth(i) {
            Provenance::Measured
        } else {
            Provenance::Approximation
        }
    }

    fn geometry(&self) -> PanelGeometry {
        PanelGeometry {
            width: self.word(0),
            height: self.word(1),
            first_source: self.word(2),
            columns_reversed: self.truth(3),
            native_scan: GateScan {
                sm: self.truth(4),
                gd: self.truth(5),
            },
            rows_reversed: self.truth(6),
        }
    }

    fn optics(&self) -> Optics {
        Optics {
            provenance: self.provenance(7),
            full_swing: self.number(8),
            positive_drives_black: self.truth(9),
            initial_gray: self.byte(10),
        }
    }

    fn timing(&self) -> Ssd1677Timing {
        Ssd1677Timing {
            provenance: self.provenance(11),
            clock_on: self.number(12),
            analog_on: self.number(13),
            analog_off: self.number(14),
            temperature_internal: self.number(15),
            temperature_external: self.number(16),
            lut_load: self.number(17),
            soft_reset: self.number(18),
            hardware_reset: self.number(19),
            auto_write: self.number(20),
            vci_detection: self.number(21),
            frame_period: self.frame_period(),
        }
    }

    fn frame_period(&self) -> [u64; 16] {
        let mut periods = [0u64; 16];
        for (i, period) in periods.iter_mut().enumerate() {
            *period = self.number(22 + i);
        }
        periods
    }

    fn external_sensor(&self) -> Option<u16> {
        if self.truth(40) {
            Some(self.word(41))
        } else {
            None
        }
    }

    fn user_id(&self) -> [u8; 10] {
        let mut user_id = [0u8; 10];
        for (i, byte) in user_id.iter_mut().enumerate() {
            *byte = self.byte(43 + i);
        }
        user_id
    }
}
