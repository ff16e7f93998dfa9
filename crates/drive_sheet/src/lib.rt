// Settings written from a drive sheet, and read back into one (#104): frames, repeats, codes, frame-rate codes, gate byte and four
// voltages, against the 112 bytes of the LUT register and the OTP (datasheet Figure 6-6).
#![tactic(auto)]

mod groups;
mod supplies;

ghost use Rattle.std.specs.Prelude.{◌≡◌, ◌<◌, length, OnOk};
ghost use Rattle.numbers.specs.Lists.{tab};
ghost use Rattle.voltage.specs.Codes.{vcom_voltage};
ghost use Rattle.waveform.specs.Voltages.{or_zero};
ghost use Rattle.waveform.specs.Setting.{group_codes_of};
ghost use Rattle.drive_sheet.specs.Bytes.{setting_of, sheet_byte, last_byte, sheet_of};
ghost use Rattle.drive_sheet.specs.Tests.{Prepared, sheet_refusal, told_of, number_in, reply, written_of};

use waveform::{GroupCodes, Levels};

const SETTING_BYTES: usize = 112;

// A waveform as a technician draws it.
#[derive(Clone, Copy)]
pub struct Sheet {
    pub groups: [GroupCodes; 10],
    // The byte of the gate voltage, as it is (0x03).
    pub gate: u8,
    // Millivolts; VSL and VCOM are below 0.
    pub vsh1: i64,
    pub vsh2: i64,
    pub vsl: i64,
    pub vcom: i64,
}

// The voltages of a setting that have codes.
#[derive(Clone, Copy)]
pub enum Supply {
    Vsh1,
    Vsh2,
    Vsl,
    Vcom,
}

// The codes of a sheet's voltages, as far as they have one.
#[derive(Clone, Copy)]
pub struct SupplyCodes {
    pub vsh1: Option<u8>,
    pub vsh2: Option<u8>,
    pub vsl: Option<u8>,
    pub vcom: Option<u8>,
}

// Why a sheet is not written.
#[derive(Clone, Copy)]
pub enum SheetError {
    // The lent bytes are not 112.
    Length,
    // A voltage has no code.
    NoCode,
    // A repeat is outside 1 to 256.
    Repeats,
    // A LUT code exceeds 3, or a frame-rate code 15.
    Code,
}

// The number of a refusal.
impl From<SheetError> for u8 {
    ghost from_gives = { λ error number. number ≡ number_in (sheet_refusal error) };

    #[tactic(auto, unfolding(crate::specs::Tests::sheet_refusal))]
    fn from(error: SheetError) -> u8 {
        match error {
            SheetError::Length => 11,
            SheetError::NoCode => 61,
            SheetError::Repeats => 62,
            SheetError::Code => 63,
        }
    }
}

// Bytes 105 to 111, of voltages that have a code.
fn last_byte(gate: u8, codes: SupplyCodes, place: usize) -> u8
    ensures { result ≡ last_byte gate codes place }
{
    match place {
        0 => gate,
        1 => codes.vsh1.unwrap_or(0),
        2 => codes.vsh2.unwrap_or(0),
        3 => codes.vsl.unwrap_or(0),
        4 => codes.vcom.unwrap_or(0),
        _ => 0,
    }
}

fn byte_at(sheet: Sheet, codes: SupplyCodes, at: usize) -> u8
    requires { (at < 112) × Prepared sheet codes }
    ensures { result ≡ sheet_byte sheet at }
{
    if at < 50 {
        let group = at % 10;
        return groups::codes_byte(sheet.groups[group], at / 10);
    }
    if at < 100 {
        let group = (at - 50) / 5;
        return groups::frames_byte(sheet.groups[group], (at - 50) % 5);
    }
    if at < 105 {
        let even = 2 * (at - 100);
        let odd = even + 1;
        return groups::rates_byte(sheet.groups[even], sheet.groups[odd]);
    }
    last_byte(sheet.gate, codes, at - 105)
}

fn fill(sheet: Sheet, codes: SupplyCodes, out: &mut [u8])
    requires { (length out.old ≡ 112) × Prepared sheet codes }
    ensures { out.new ≡ setting_of sheet }
{
    // By its counter, which is the byte's place.
    for i in 0..SETTING_BYTES {
        out[i] = byte_at(sheet, codes, i);
    }
}

// The setting of a sheet, into the lent bytes; refused, they stay as they were. What was written is decoded to the sheet again.
pub fn write(sheet: Sheet, out: &mut [u8]) -> Result<(), SheetError>
    ensures bytes { reply (told_of result) out.new ≡ written_of sheet out.old }
    ensures back { OnOk result (sheet_of out.new ≡ sheet) }
{
    let codes = supplies::find_codes(sheet);
    let no_code = supplies::lacks_code(codes);
    let bad_repeats = groups::any_bad_repeats(sheet);
    let bad_codes = groups::any_bad_codes(sheet);
    if out.len() != SETTING_BYTES {
        return Err(SheetError::Length);
    }
    if no_code {
        return Err(SheetError::NoCode);
    }
    if bad_repeats {
        return Err(SheetError::Repeats);
    }
    if bad_codes {
        return Err(SheetError::Code);
    }
    fill(sheet, codes, out);
    Ok(())
}

// ---- back

// VCOM's millivolts; an unlisted code reads 0 V, as those of the sources do.
fn vcom_of(code: u8) -> i64
    ensures { result ≡ or_zero (vcom_voltage code) }
{
    voltage::vcom_millivolts(code).unwrap_or(0)
}

// The ten groups of a setting, as they are decoded for a refresh.
fn groups_of(setting: &[u8; 112]) -> [GroupCodes; 10]
    ensures { result ≡ tab 10 (group_codes_of setting.now) }
{
    [
        setting::group_codes(setting, 0),
        setting::group_codes(setting, 1),
        setting::group_codes(setting, 2),
        setting::group_codes(setting, 3),
        setting::group_codes(setting, 4),
        setting::group_codes(setting, 5),
        setting::group_codes(setting, 6),
        setting::group_codes(setting, 7),
        setting::group_codes(setting, 8),
        setting::group_codes(setting, 9),
    ]
}

// The sheet of a setting. Of bytes that `write` never makes, unlisted voltages read 0 and bytes 110 and 111 are left out.
pub fn read(setting: &[u8; 112]) -> Sheet
    ensures { result ≡ sheet_of setting.now }
{
    let groups = groups_of(setting);
    let levels = Levels::from_setting(setting);
    let vcom = vcom_of(setting[109]);
    Sheet {
        groups,
        gate: setting[105],
        vsh1: levels.vsh1,
        vsh2: levels.vsh2,
        vsl: levels.vsl,
        vcom,
    }
}
