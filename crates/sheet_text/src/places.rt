// The numbers of a drive sheet at their places in a text (docs/drive-sheet.md). Nothing is refused here: a text is a sheet's where
// writing its numbers gives it back.
ghost use Rattle.std.specs.Prelude.{◌≡◌, ◌+◌, ◌-◌, ◌*◌, ◌/◌, ◌%◌, ◌^◌, ◌<◌, ◌≤◌, get_or};
ghost use Rattle.numbers.specs.Lists.{tab};
ghost use Rattle.sheet_text.specs.Reading.{value_at, minus_at, whole_at, group_drawn, sheet_in};

use drive_sheet::Sheet;
use waveform::GroupCodes;

const LINE_BYTES: usize = 52;

// 0 past the end.
fn byte_at(text: &[u8], at: usize) -> u8
    ensures { result ≡ get_or text.now at 0 }
{
    if at < text.len() {
        return text[at];
    }
    0
}

// A blank and a minus count 0.
fn digit_at(text: &[u8], at: usize) -> u8
    ensures digit { result ≡ get_or text.now at 0 - 48 }
    ensures small { result ≤ 207 }
{
    let byte = byte_at(text, at);
    if byte < b'0' {
        return 0;
    }
    byte - b'0'
}

// By places, since the text may end before the column does.
fn number_at(text: &[u8], at: usize, width: usize) -> u64
    requires { (at ≤ 580) × (width ≤ 7) }
    ensures number { result ≡ value_at text.now at width }
    ensures small { result < 2 ^ 32 }
{
    let mut n: u64 = 0;
    for i in 0..width {
        let digit = digit_at(text, at + i);
        n = 10 * n + u64::from(digit);
    }
    n
}

// By `|`: the text may end before the seven columns do, and the contract speaks of `any_of` over places, so that `any` is no plainer.
fn minus_at(text: &[u8], at: usize) -> bool
    requires { at ≤ 580 }
    ensures { result ≡ minus_at text.now at }
{
    let mut minus = false;
    for i in 0..7 {
        let byte = byte_at(text, at + i);
        let one = byte == b'-';
        minus = minus | one;
    }
    minus
}

fn whole_at(text: &[u8], at: usize) -> i64
    requires { at ≤ 580 }
    ensures { result ≡ whole_at text.now at }
{
    let n = number_at(text, at, 7);
    if minus_at(text, at) {
        return numbers::negative_i64(n);
    }
    numbers::to_i64(n)
}

// Of a number of frames, or a gate byte, that is no byte something else is written.
fn low_byte_at(text: &[u8], at: usize, width: usize) -> u8
    requires { (at ≤ 580) × (width ≤ 7) }
    ensures { result ≡ value_at text.now at width % 256 }
{
    let n = number_at(text, at, width);
    (n % 256) as u8
}

fn repeats_at(text: &[u8], at: usize) -> u16
    requires { at ≤ 580 }
    ensures { result ≡ value_at text.now at 4 % 65536 }
{
    let n = number_at(text, at, 4);
    (n % 65536) as u16
}

// By the phase, whose place in the text is reckoned from it; so the codes.
fn frames_at(text: &[u8], at: usize) -> [u8; 4]
    requires { at ≤ 560 }
    ensures { result ≡ tab 4 (λ phase. value_at text.now (at + 4 * phase) 4 % 256) }
{
    let mut frames = [0u8; 4];
    for phase in 0..4 {
        frames[phase] = low_byte_at(text, at + 4 * phase, 4);
    }
    frames
}

fn codes_at(text: &[u8], at: usize) -> [u8; 20]
    requires { at ≤ 580 }
    ensures { result ≡ tab 20 (λ k. get_or text.now (at + k + k / 4) 0 - 48) }
{
    let mut codes = [0u8; 20];
    for k in 0..20 {
        codes[k] = digit_at(text, at + k + k / 4);
    }
    codes
}

fn group_in(text: &[u8], number: usize) -> GroupCodes
    requires { number < 10 }
    ensures { result ≡ group_drawn text.now number }
{
    let at = LINE_BYTES * number;
    let frames = frames_at(text, at + 3);
    let repeats = repeats_at(text, at + 19);
    let rate = number_at(text, at + 23, 3);
    let codes = codes_at(text, at + 27);
    GroupCodes {
        frames,
        repeats,
        frame_rate: rate as usize,
        codes,
    }
}

fn groups_in(text: &[u8]) -> [GroupCodes; 10]
    ensures { result ≡ tab 10 (group_drawn text.now) }
{
    [
        group_in(text, 0),
        group_in(text, 1),
        group_in(text, 2),
        group_in(text, 3),
        group_in(text, 4),
        group_in(text, 5),
        group_in(text, 6),
        group_in(text, 7),
        group_in(text, 8),
        group_in(text, 9),
    ]
}

pub(crate) fn sheet_in(text: &[u8]) -> Sheet
    ensures { result ≡ sheet_in text.now }
{
    let groups = groups_in(text);
    let gate = low_byte_at(text, 524, 7);
    let vsh1 = whole_at(text, 536);
    let vsh2 = whole_at(text, 548);
    let vsl = whole_at(text, 560);
    let vcom = whole_at(text, 572);
    Sheet {
        groups,
        gate,
        vsh1,
        vsh2,
        vsl,
        vcom,
    }
}
