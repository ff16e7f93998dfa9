// The waveform settings (WS) of the panel's OTP with their temperature ranges (TR) and display modes, as a lent table of 118 bytes an
// entry: mode, provenance, lower and upper bound as registers, high byte first, and the 112 bytes of the setting (config.rs).
#![tactic(auto)]

ghost use Rattle.std.specs.Prelude.{◌≡◌, [], ◌∷◌, ◌+◌, ◌*◌};
ghost use Rattle.config.specs.Answer.{first_of, answer_of};
ghost use Rattle.config.specs.Temperature.{sixteenths_of};
ghost use Rattle.otp.specs.Table.{entry_count, bad_entry, bad_table, table_test};
ghost use Rattle.otp.specs.Search.{any_of, last_of};
ghost use Rattle.otp.specs.Waveform.{is_coldest, reaches, covers, found_entry, part_of, place_of};

use config::{ConfigError, DisplayMode, Temperature};

pub const ENTRY_BYTES: usize = 118;

// By SCOPE, OTP table (#106).
pub const MOST_ENTRIES: usize = 64;

// Two bytes, high first.
fn pair(high: u8, low: u8) -> u16
    ensures { result ≡ high * 256 + low }
{
    u16::from(high) * 256 + u16::from(low)
}

fn bad_entry(entry: &[u8; ENTRY_BYTES]) -> bool
    ensures { result ≡ bad_entry entry.now 0 }
{
    let lower = pair(entry[2], entry[3]);
    let upper = pair(entry[4], entry[5]);
    (1 < entry[0]) | (1 < entry[1]) | (4095 < lower) | (4095 < upper)
}

fn any_bad_entry(otp: &[u8]) -> bool
    ensures { result ≡ any_of (bad_entry otp.now) (entry_count otp.now) }
{
    let (entries, _) = otp.as_chunks::<ENTRY_BYTES>();
    let mut bad = false;
    for entry in entries {
        bad |= bad_entry(entry);
    }
    bad
}

// Whether the bytes lent are no table; a length that is refused is not looked into.
pub fn is_bad_table(otp: &[u8]) -> bool
    ensures { result ≡ bad_table otp.now }
{
    let entries = otp.len() / ENTRY_BYTES;
    if (otp.len() % ENTRY_BYTES != 0) | (MOST_ENTRIES < entries) {
        return true;
    }
    any_bad_entry(otp)
}

pub fn check_table(otp: &[u8]) -> Result<(), ConfigError>
    ensures { answer_of result ≡ first_of (table_test otp.now ∷ []) }
{
    if is_bad_table(otp) {
        return Err(ConfigError::BadTable);
    }
    Ok(())
}

fn sixteenths_of(register: u16) -> i16
    ensures { result ≡ sixteenths_of register }
{
    Temperature::from_register(register).sixteenths()
}

// Register 0x800: −2048, the coldest temperature of the format.
const COLDEST: u16 = 0x800;

fn is_coldest(register: u16) -> bool
    ensures { result ≡ is_coldest register }
{
    register % 4096 == COLDEST
}

// Whether a range goes down to a temperature: it lies above the lower bound, or both are the coldest, which lies above none (#107).
fn reaches_down(lower: u16, register: u16) -> bool
    ensures { result ≡ reaches lower register }
{
    let bottom = is_coldest(lower) & is_coldest(register);
    (sixteenths_of(lower) < sixteenths_of(register)) | bottom
}

// Whether the entry is of the mode and its range holds the register's temperature.
fn covers_register(entry: &[u8; ENTRY_BYTES], mode: DisplayMode, register: u16) -> bool
    ensures { result ≡ covers entry.now mode register 0 }
{
    let byte = mode as u8;
    let reached = reaches_down(pair(entry[2], entry[3]), register);
    let upper = sixteenths_of(pair(entry[4], entry[5]));
    let temperature = sixteenths_of(register);
    (entry[0] == byte) & reached & (temperature <= upper)
}

// By their numbers, since that of the last one is what is asked for.
fn last_covering(otp: &[u8], mode: DisplayMode, register: u16) -> Option<usize>
    ensures { result ≡ last_of (covers otp.now mode register) (entry_count otp.now) }
{
    let (entries, _) = otp.as_chunks::<ENTRY_BYTES>();
    for entry in (0..entries.len()).rev() {
        if covers_register(&entries[entry], mode, register) {
            return Some(entry);
        }
    }
    None
}

// The waveform the controller loads for the mode at the temperature: the last setting of that mode whose range holds it ("The last match
// will be selected", datasheet §6.9).
fn find_entry(otp: &[u8], mode: DisplayMode, register: u16) -> Option<usize>
    ensures { result ≡ found_entry otp.now mode register }
{
    if is_bad_table(otp) {
        return None;
    }
    last_covering(otp, mode, register)
}

// In place of an entry's number where there is none; no entry has it, for 12 refuses more than 64 of them (#108).
const NO_PLACE: u8 = 255;

// The last entry that covers, as its part of the table, with the entry's number left in `place`; with no such entry an empty part and 255.
pub fn find_waveform<'a>(
    otp: &'a [u8],
    mode: DisplayMode,
    register: u16,
    place: &mut u8,
) -> &'a [u8]
    ensures { (result.now ≡ part_of otp.now (found_entry otp.now mode register)) × (place.new ≡ place_of (found_entry otp.now mode register)) }
{
    let Some(entry) = find_entry(otp, mode, register) else {
        *place = NO_PLACE;
        return &otp[0..0];
    };
    *place = entry as u8;
    let at = ENTRY_BYTES * entry;
    let end = at + ENTRY_BYTES;
    &otp[at..end]
}
