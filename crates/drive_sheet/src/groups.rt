// What is refused of a sheet's groups, and the bytes of one.
ghost use Rattle.std.specs.Prelude.{◌≡◌, false, ◌+◌, ◌*◌, ◌<◌};
ghost use Rattle.otp.specs.Search.{any_of};
ghost use Rattle.drive_sheet.specs.Bytes.{codes_byte, frames_byte, rates_byte};
ghost use Rattle.drive_sheet.specs.Tests.{bad_repeats, high_code, bad_codes, repeats_test, codes_test};

use crate::Sheet;
use waveform::GroupCodes;

// A byte holds repeats minus one, so 1 to 256.
fn bad_repeats(group: GroupCodes) -> bool
    ensures { result ≡ bad_repeats group }
{
    (group.repeats == 0) | (256 < group.repeats)
}

pub(crate) fn any_bad_repeats(sheet: Sheet) -> bool
    ensures { result ≡ (repeats_test sheet).refuses }
{
    let mut bad = false;
    for group in sheet.groups {
        bad |= bad_repeats(group);
    }
    bad
}

fn any_high_code(codes: [u8; 20]) -> bool
    ensures { result ≡ any_of (high_code codes) 20 }
{
    let mut high = false;
    for code in codes {
        high |= 3 < code;
    }
    high
}

fn bad_codes(group: GroupCodes) -> bool
    ensures { result ≡ bad_codes group }
{
    let codes = group.codes;
    any_high_code(codes) | (15 < group.frame_rate)
}

pub(crate) fn any_bad_codes(sheet: Sheet) -> bool
    ensures { result ≡ (codes_test sheet).refuses }
{
    let mut bad = false;
    for group in sheet.groups {
        bad |= bad_codes(group);
    }
    bad
}

// Four two-bit codes in a byte, the first highest.
fn packed(first: u8, second: u8, third: u8, fourth: u8) -> u8
    requires { (first < 4) × ((second < 4) × ((third < 4) × (fourth < 4))) }
    ensures { result ≡ 64 * first + 16 * second + 4 * third + fourth }
{
    (first << 6) | (second << 4) | (third << 2) | fourth
}

// The codes of a LUT in the four phases of a group.
pub(crate) fn codes_byte(group: GroupCodes, lut: usize) -> u8
    requires { (lut < 5) × (bad_codes group ≡ false) }
    ensures { result ≡ codes_byte group lut }
{
    let at = 4 * lut;
    packed(
        group.codes[at],
        group.codes[at + 1],
        group.codes[at + 2],
        group.codes[at + 3],
    )
}

// Four frame counts, then repeats minus one.
pub(crate) fn frames_byte(group: GroupCodes, place: usize) -> u8
    requires { bad_repeats group ≡ false }
    ensures { result ≡ frames_byte group place }
{
    if place < 4 {
        return group.frames[place];
    }
    (group.repeats - 1) as u8
}

// The even group in the high nibble, as the setting is read.
pub(crate) fn rates_byte(even: GroupCodes, odd: GroupCodes) -> u8
    requires { (bad_codes even ≡ false) × (bad_codes odd ≡ false) }
    ensures { result ≡ rates_byte even odd }
{
    ((even.frame_rate as u8) << 4) | (odd.frame_rate as u8)
}
