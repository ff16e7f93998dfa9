// Which RAM pixel each pixel of the glass shows, and the LUT that its bits choose (panel.rs; datasheet Table 8-2), with the gates and rows
// of `gates` by the same name.
#![tactic(auto)]

ghost use Rattle.std.specs.Prelude.{◌≡◌, ◌+◌, ◌*◌, ◌≤◌, ◌<◌, length};
ghost use Rattle.numbers.specs.Lists.{tab};
ghost use Rattle.ram.specs.Plane.{bit_at};
ghost use Rattle.gates.specs.Gates.{row_or};
ghost use Rattle.scan.specs.Luts.{option_of, applied, lut_of_bits, lut_in_row, source_of, lut_of};

use config::{GateScan, PanelGeometry};
pub use gates::{gate_of_row, ram_row_of_gate};
use panel::UNDRIVEN;

// The RAM-plane options of 0x21: a nibble per plane, normal, read as 0, or inverted.
#[derive(Clone, Copy)]
pub enum PlaneOption {
    Normal,
    Zero,
    Inverse,
}

impl PlaneOption {
    // 0000 normal, 0100 bypass as 0, 1000 inverse; another value (reported by the write) reads as normal.
    pub fn from_nibble(nibble: u8) -> PlaneOption
        ensures { result ≡ option_of nibble }
    {
        let low = numbers::low_nibble(nibble);
        match low {
            0b0100 => PlaneOption::Zero,
            0b1000 => PlaneOption::Inverse,
            _ => PlaneOption::Normal,
        }
    }

    fn apply(self, bit: bool) -> bool
        ensures { result ≡ applied self bit }
    {
        match self {
            PlaneOption::Normal => bit,
            PlaneOption::Zero => false,
            PlaneOption::Inverse => !bit,
        }
    }
}

// What the display reads from the controller's registers.
#[derive(Clone, Copy)]
pub struct Scan {
    // MUX + 1: the gates scanned, from G0.
    pub lines: u16,
    // The SM and GD bits of 0x01.
    pub order: GateScan,
    pub red: PlaneOption,
    pub black_white: PlaneOption,
}

// The LUT of a pixel's bits.
fn lut_of_bits(red: bool, black_white: bool) -> u8
    ensures { result ≡ lut_of_bits red black_white }
{
    2 * (red as u8) + (black_white as u8)
}

// The bit of a source in a row of a whole plane: `ram::bit` without its tests.
fn bit_in_row(plane: &[u8], row: u16, source: usize) -> bool
    requires whole { length plane.now ≡ 81600 }
    requires in_ram { row < 680 }
    requires driven { source < 960 }
    ensures { Some result ≡ bit_at plane.now source row }
{
    let byte = plane[row as usize * ram::ROW_BYTES + source / 8];
    (byte >> (7 - source % 8)) & 1 == 1
}

// The LUT of a source's pixel in a row.
fn lut_in_row(row: Option<u16>, red: &[u8], black_white: &[u8], scan: Scan, source: usize) -> u8
    requires whole_red { length red.now ≡ 81600 }
    requires whole_black_white { length black_white.now ≡ 81600 }
    requires in_ram { row_or row 0 < 680 }
    requires driven { source < 960 }
    ensures { result ≡ lut_in_row row red.now black_white.now scan source }
{
    let Some(at) = row else {
        return UNDRIVEN;
    };
    let red_option = scan.red;
    let black_white_option = scan.black_white;
    let high = red_option.apply(bit_in_row(red, at, source));
    let low = black_white_option.apply(bit_in_row(black_white, at, source));
    lut_of_bits(high, low)
}

// The source of a column of the glass.
fn source_of(geometry: PanelGeometry, x: usize) -> usize
    requires { x < geometry.width }
    ensures { result ≡ source_of geometry x }
{
    let first = geometry.first_source as usize;
    let last = geometry.width as usize - 1;
    if geometry.columns_reversed {
        return first + (last - x);
    }
    first + x
}

// Fixes the LUT of every pixel of the glass for a display.
pub fn start(
    luts: &mut [u8],
    gates: &[u16],
    red: &[u8],
    black_white: &[u8],
    geometry: PanelGeometry,
    scan: Scan,
)
    requires pixels { length luts.old ≡ geometry.height * geometry.width }
    requires rows { length gates.now ≡ geometry.height }
    requires whole_red { length red.now ≡ 81600 }
    requires whole_black_white { length black_white.now ≡ 81600 }
    requires driven { geometry.first_source + geometry.width ≤ 960 }
    ensures { luts.new ≡ tab (length luts.old) (lut_of gates.now red.now black_white.now geometry scan) }
{
    let width = geometry.width as usize;
    let height = geometry.height as usize;
    let order = scan.order;
    // By their counters: the column has its source, and pixels in a row of `width` bytes would need that the glass is not empty.
    for y in 0..height {
        let row = ram_row_of_gate(gates[y], order, scan.lines);
        for x in 0..width {
            let source = source_of(geometry, x);
            luts[y * width + x] = lut_in_row(row, red, black_white, scan, source);
        }
    }
}
