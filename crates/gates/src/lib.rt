// Which row of the RAM each gate shows, and which gate drives each row of the glass (panel.rs; datasheet Table 8-2).
#![tactic(auto)]

ghost use Rattle.std.specs.Prelude.{◌≡◌, ◌<◌};
ghost use Rattle.gates.specs.Gates.{row_of, row_of_gate, native_row, physical_row, gates_stored};

use config::{GateScan, PanelGeometry};

// The row of a gate that is scanned, in the RAM or past it.
fn row_of(gate: u16, scan: GateScan, lines: u16) -> u16
    requires { gate < lines }
    ensures { result ≡ row_of scan.sm scan.gd gate lines }
{
    let half = lines / 2 + lines % 2;
    let even = gate % 2 == 0;
    if scan.sm {
        if scan.gd {
            if even {
                return half + gate / 2;
            }
            return gate / 2;
        }
        if even {
            return gate / 2;
        }
        return half + gate / 2;
    }
    if scan.gd {
        return gate ^ 1;
    }
    gate
}

// The RAM row that `gate` shows when `lines` gates are scanned with `scan` (Table 8-2): none when the gate is not scanned, or when
// it would show a row past the RAM (a MUX the firmware set beyond 680 lines with SM = 1 sends the upper half of the gates there):
// such a gate is not driven.
pub fn ram_row_of_gate(gate: u16, scan: GateScan, lines: u16) -> Option<u16>
    ensures { result ≡ row_of_gate gate scan lines }
{
    if lines <= gate {
        return None;
    }
    let row = row_of(gate, scan, lines);
    if row < lines {
        if row < config::RAM_GATES {
            return Some(row);
        }
    }
    None
}

// The native row of a gate; a gate that has none counts as its own row.
fn native_row(gate: u16, scan: GateScan, height: u16) -> u16
    ensures { result ≡ native_row gate scan height }
{
    match ram_row_of_gate(gate, scan, height) {
        Some(row) => row,
        None => gate,
    }
}

// The row of the glass that a gate drives.
fn physical_row(gate: u16, geometry: PanelGeometry) -> u16
    requires { gate < geometry.height }
    ensures { result ≡ physical_row geometry gate }
{
    let native_scan = geometry.native_scan;
    let height = geometry.height;
    let row = native_row(gate, native_scan, height);
    if geometry.rows_reversed {
        return height - 1 - row;
    }
    row
}

// Stores in `gates` the gate that drives each row of the glass, whatever they were before.
pub fn gate_of_row(gates: &mut [u16], geometry: PanelGeometry)
    ensures { gates.new ≡ gates_stored geometry geometry.height gates.old }
{
    let height = geometry.height;
    // By its counter, which is what is stored.
    for gate in 0..height {
        let row = physical_row(gate, geometry) as usize;
        if row < gates.len() {
            gates[row] = gate;
        }
    }
}
