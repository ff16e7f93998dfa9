// The codes of a sheet's voltages.
ghost use Rattle.std.specs.Prelude.{◌≡◌, ◌<◌};
ghost use Rattle.drive_sheet.specs.Bytes.{Formed};
ghost use Rattle.drive_sheet.specs.Supplies.{voltage_of, is_listed_as, supply_code, supply_codes_of, lacks_code};

use crate::{Sheet, Supply, SupplyCodes};

// 00h to FFh.
const CODES: usize = 256;

fn millivolts_of(supply: Supply, code: u8) -> Option<i64>
    ensures { result ≡ voltage_of supply code }
{
    match supply {
        Supply::Vsh1 => voltage::source_millivolts(code),
        Supply::Vsh2 => voltage::source_millivolts(code),
        Supply::Vsl => voltage::vsl_millivolts(code),
        Supply::Vcom => voltage::vcom_millivolts(code),
    }
}

fn is_listed_as(listed: Option<i64>, millivolts: i64) -> bool
    ensures { result ≡ is_listed_as listed millivolts }
{
    match listed {
        Some(value) => value == millivolts,
        None => false,
    }
}

fn stands_for(supply: Supply, code: usize, millivolts: i64) -> bool
    requires { code < 256 }
    ensures { result ≡ is_listed_as (voltage_of supply code) millivolts }
{
    is_listed_as(millivolts_of(supply, code as u8), millivolts)
}

// 0 mV is 00h for every supply (#104); only VCOM's list has it.
fn find_code(supply: Supply, millivolts: i64) -> Option<u8>
    ensures { result ≡ supply_code supply millivolts }
{
    if millivolts == 0 {
        return Some(0);
    }
    for code in 0..CODES {
        if stands_for(supply, code, millivolts) {
            return Some(code as u8);
        }
    }
    None
}

// A struct whose signed fields are read tells the lengths of its arrays too, which no other step of `write` does.
pub(crate) fn find_codes(sheet: Sheet) -> SupplyCodes
    ensures codes { result ≡ supply_codes_of sheet }
    ensures formed { Formed sheet }
{
    SupplyCodes {
        vsh1: find_code(Supply::Vsh1, sheet.vsh1),
        vsh2: find_code(Supply::Vsh2, sheet.vsh2),
        vsl: find_code(Supply::Vsl, sheet.vsl),
        vcom: find_code(Supply::Vcom, sheet.vcom),
    }
}

pub(crate) fn lacks_code(codes: SupplyCodes) -> bool
    ensures { result ≡ lacks_code codes }
{
    codes.vsh1.is_none() | codes.vsh2.is_none() | codes.vsl.is_none() | codes.vcom.is_none()
}
