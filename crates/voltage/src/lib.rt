// The voltage codes of commands 0x03, 0x04 and 0x2C (waveform.rs).
#![tactic(auto)]

mod sheet;

ghost use Rattle.std.specs.Prelude.{◌≡◌};
ghost use Rattle.voltage.specs.Codes.{source_voltage, vsl_voltage, vcom_voltage, gate_listed};

// VSH1 or VSH2 (0x04, bytes A and B).
pub fn source_millivolts(code: u8) -> Option<i64>
    ensures { result ≡ source_voltage code }
{
    let millivolts = sheet::SOURCE_MILLIVOLTS[code as usize]?;
    Some(i64::from(millivolts))
}

// VSL (0x04, byte C).
pub fn vsl_millivolts(code: u8) -> Option<i64>
    ensures { result ≡ vsl_voltage code }
{
    if code % 2 == 1 {
        return None;
    }
    match code {
        0x1A..=0x3A => Some(-((9000 + (code - 0x1A) as u64 / 2 * 500) as i64)),
        _ => None,
    }
}

// DCVCOM (0x2C).
pub fn vcom_millivolts(code: u8) -> Option<i64>
    ensures { result ≡ vcom_voltage code }
{
    if code % 4 != 0 {
        return None;
    }
    match code {
        0x00 => Some(0),
        0x08..=0xA0 => Some(-((200 + (code - 0x08) as u64 / 4 * 100) as i64)),
        _ => None,
    }
}

// VGH (0x03). The gate voltage moves no pixel of the model; the code is only checked.
pub fn gate_code_is_listed(code: u8) -> bool
    ensures { result ≡ gate_listed code }
{
    match code {
        0x00 => true,
        0x07..=0x17 => true,
        _ => false,
    }
}
