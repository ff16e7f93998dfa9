// 0x14 and 0x15 (mod.rs, `hv_ready_detection`, `vci_detection`; datasheet Table 7-1).
#![tactic(auto)]

ghost use Rattle.std.specs.Prelude.{◌≡◌, ◌&&◌, ◌/◌, ◌%◌, eqb, leb, ltb, length};
ghost use Rattle.world.specs.World.{with_log};
ghost use Rattle.acts.specs.Acts.{with_hv_not_ready, with_vci_low, hv_detected, hv_ready, vci_level, vci_detected, vci_sensed};

use acts::{busy_for, check};
use device::{Ssd1677, Status, part};
use diagnostic::{Log, Stage};

// A step of the cool-down of 0x14, in nanoseconds.
const COOL_DOWN: u64 = 10000000;

// Bit 5 of the status byte.
fn set_hv_not_ready(state: Ssd1677, not_ready: bool) -> Ssd1677
    ensures { result ≡ with_hv_not_ready state not_ready }
{
    let old = state.status;
    let status = Status {
        hv_not_ready: not_ready,
        vci_low: old.vci_low,
    };
    part::set_status(state, status)
}

// Bit 4 of the status byte.
fn set_vci_low(state: Ssd1677, low: bool) -> Ssd1677
    ensures { result ≡ with_vci_low state low }
{
    let old = state.status;
    let status = Status {
        hv_not_ready: old.hv_not_ready,
        vci_low: low,
    };
    part::set_status(state, status)
}

// A[6:4] of 0x14.
fn cool_downs(byte: u8) -> u8
    ensures { result ≡ byte / 16 % 8 }
{
    (byte >> 4) & 0b111
}

// With the supplies up the HV is ready at the first detection; without them the detection cannot succeed.
fn detect_hv(state: Ssd1677, log: &mut Log, byte: u8) -> Ssd1677
    ensures { with_log result log.new ≡ hv_detected byte (with_log state log.old) }
{
    if start::powered(state) {
        let steps = cool_downs(byte);
        let ready = set_hv_not_ready(state, false);
        return busy_for(ready, (steps as u64 + 1) * COOL_DOWN);
    }
    let noted = start::report_unpowered(state, log, Stage::HvReadyDetection);
    set_hv_not_ready(noted, true)
}

// Bits 7 and 3 of 0x14 are 0.
fn hv_listed(byte: u8) -> bool
    ensures { result ≡ (eqb (byte / 128) 0 && eqb (byte / 8 % 2) 0) }
{
    byte & 0x88 == 0
}

// 0x14.
pub fn hv_ready_detection(state: Ssd1677, log: &mut Log, byte: u8) -> Ssd1677
    ensures { with_log result log.new ≡ hv_ready byte (with_log state log.old) }
{
    let listed = hv_listed(byte);
    let noted = check(state, log, 0x14, byte, listed);
    detect_hv(noted, log, byte)
}

// A[2:0] of 0x15.
fn level(byte: u8) -> u8
    ensures { result ≡ byte % 8 }
{
    byte & 0b111
}

// The level of 0x15 in millivolts, 2.2 V to 2.6 V; 2.3 V at reset.
fn millivolts(byte: u8) -> u32
    ensures { result ≡ vci_level byte }
{
    let step = level(byte);
    if 3 <= step {
        return 2200 + 100 * (step as u32 - 3);
    }
    2300
}

// Whether VCI lies below the level, with the supplies up.
fn detect_vci(state: Ssd1677, log: &mut Log, byte: u8) -> Ssd1677
    ensures { with_log result log.new ≡ vci_detected byte (with_log state log.old) }
{
    if start::powered(state) {
        let config = state.config;
        let timing = config.timing;
        let least = millivolts(byte);
        let found = set_vci_low(state, config.vci_millivolts < least);
        return busy_for(found, timing.vci_detection);
    }
    start::report_unpowered(state, log, Stage::VciDetection)
}

// 3 to 7 alone.
fn vci_listed(byte: u8) -> bool
    ensures { result ≡ (leb 3 byte && ltb byte 8) }
{
    (3 <= byte) & (byte & 0b1111_1000 == 0)
}

// 0x15.
pub fn vci_detection(state: Ssd1677, log: &mut Log, byte: u8) -> Ssd1677
    ensures { with_log result log.new ≡ vci_sensed byte (with_log state log.old) }
{
    let listed = vci_listed(byte);
    let noted = check(state, log, 0x15, byte, listed);
    detect_vci(noted, log, byte)
}
