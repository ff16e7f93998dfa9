// The words for a voltage and a code (SCOPE, Sensitivity).
ghost use Rattle.std.specs.Prelude.{◌≡◌};
ghost use Rattle.column.specs.Reading.{same};
ghost use Rattle.shift_report.specs.Words.{voltage_word, hex_value, code_word};

use voltage_shift::DrivingVoltage;

fn is_word(given: &[u8], word: &[u8]) -> bool
    ensures { result ≡ same given.now word.now }
{
    given == word
}

// `vsh1`, `vsh2` or `vsl`.
pub fn voltage(word: &[u8]) -> Option<DrivingVoltage>
    ensures { result ≡ voltage_word word.now }
{
    if is_word(word, b"vsh1") {
        return Some(DrivingVoltage::Vsh1);
    }
    if is_word(word, b"vsh2") {
        return Some(DrivingVoltage::Vsh2);
    }
    if is_word(word, b"vsl") {
        return Some(DrivingVoltage::Vsl);
    }
    None
}

// What a hexadecimal digit counts.
fn hex_value(byte: u8) -> Option<u8>
    ensures { result ≡ hex_value byte }
{
    match byte {
        b'0'..=b'9' => Some(byte - 48),
        b'A'..=b'F' => Some(byte - 55),
        b'a'..=b'f' => Some(byte - 87),
        _ => None,
    }
}

// `0x` and two hexadecimal digits, and nothing else: 41 alone could be meant in decimal or not.
pub fn code(word: &[u8]) -> Option<u8>
    ensures { result ≡ code_word word.now }
{
    let [b'0', b'x', high, low] = word else {
        return None;
    };
    Some(16 * hex_value(*high)? + hex_value(*low)?)
}
