// The 112 bytes of a setting (datasheet Figure 6-6) read into codes, and the codes into a waveform. A group goes by its number, below 10,
// from which the places of its bytes are reckoned.
#![tactic(auto)]

ghost use Rattle.std.specs.Prelude.{◌≡◌, ◌+◌, ◌/◌, ◌%◌, ◌<◌};
ghost use Rattle.waveform.specs.Setting.{codes_of, frame_rate_of, group_codes_of, timed, waveform_of};
ghost use Rattle.setting.specs.Word.{codes_in_word};

use waveform::{Group, GroupCodes, Levels, Waveform};

// The four codes of a byte, each in a byte of its own, that of phase 0 lowest: of four copies of the byte, ten bits apart, two
// bits count in each.
fn spread(byte: u8) -> u64
    ensures { result ≡ codes_in_word byte }
{
    ((u64::from(byte) * 0x4010_0401) >> 6) & 0x0303_0303
}

// The five LUTs' codes of a group. Literals and no loops, here and of the ten groups, and the codes as the bytes of a word: the
// compiler then writes sixteen codes at once, in their place of the waveform that is handed back.
fn codes_of(setting: &[u8; 112], group: usize) -> [u8; 20]
    requires { group < 10 }
    ensures { result ≡ codes_of setting.now group }
{
    let lut0 = spread(setting[group]);
    let lut1 = spread(setting[10 + group]);
    let lut2 = spread(setting[20 + group]);
    let lut3 = spread(setting[30 + group]);
    let lut4 = spread(setting[40 + group]);
    [
        (lut0 % 256) as u8,
        (lut0 / 256 % 256) as u8,
        (lut0 / 65536 % 256) as u8,
        (lut0 / 16777216 % 256) as u8,
        (lut1 % 256) as u8,
        (lut1 / 256 % 256) as u8,
        (lut1 / 65536 % 256) as u8,
        (lut1 / 16777216 % 256) as u8,
        (lut2 % 256) as u8,
        (lut2 / 256 % 256) as u8,
        (lut2 / 65536 % 256) as u8,
        (lut2 / 16777216 % 256) as u8,
        (lut3 % 256) as u8,
        (lut3 / 256 % 256) as u8,
        (lut3 / 65536 % 256) as u8,
        (lut3 / 16777216 % 256) as u8,
        (lut4 % 256) as u8,
        (lut4 / 256 % 256) as u8,
        (lut4 / 65536 % 256) as u8,
        (lut4 / 16777216 % 256) as u8,
    ]
}

fn high_nibble(byte: u8) -> u8
    ensures { result ≡ byte / 16 % 16 }
{
    byte >> 4
}

// The even group in the high nibble: the datasheet only says "5 bytes for frame rate".
pub fn frame_rate_code(setting: &[u8; 112], group: usize) -> usize
    requires { group < 10 }
    ensures { result ≡ frame_rate_of setting.now group }
{
    let byte = setting[100 + group / 2];
    if group % 2 == 0 {
        high_nibble(byte) as usize
    } else {
        numbers::low_nibble(byte) as usize
    }
}

fn one_more(byte: u8) -> u16
    ensures { result ≡ byte + 1 }
{
    byte as u16 + 1
}

// How many times a group runs.
pub fn repeats(setting: &[u8; 112], group: usize) -> u16
    requires { group < 10 }
    ensures { result ≡ (group_codes_of setting.now group).repeats }
{
    one_more(setting[54 + 5 * group])
}

// The frames of a group's four phases.
pub fn frames(setting: &[u8; 112], group: usize) -> [u8; 4]
    requires { group < 10 }
    ensures { result ≡ (group_codes_of setting.now group).frames }
{
    let at = 5 * group;
    [
        setting[50 + at],
        setting[51 + at],
        setting[52 + at],
        setting[53 + at],
    ]
}

// A group as its setting has it.
pub fn group_codes(setting: &[u8; 112], group: usize) -> GroupCodes
    requires { group < 10 }
    ensures { result ≡ group_codes_of setting.now group }
{
    let frames = frames(setting, group);
    let repeats = repeats(setting, group);
    let frame_rate = frame_rate_code(setting, group);
    let codes = codes_of(setting, group);
    GroupCodes {
        frames,
        repeats,
        frame_rate,
        codes,
    }
}

// A group with the period of its frame-rate code.
fn with_period(group: GroupCodes, frame_period: &[u64; 16]) -> Group
    requires { group.frame_rate < 16 }
    ensures { result ≡ timed frame_period.now group }
{
    let frames = group.frames;
    let codes = group.codes;
    let rate = group.frame_rate;
    Group {
        frames,
        repeats: group.repeats,
        frame_ns: frame_period[rate],
        codes,
    }
}

fn group_of(setting: &[u8; 112], frame_period: &[u64; 16], group: usize) -> Group
    requires { group < 10 }
    ensures { result ≡ timed frame_period.now (group_codes_of setting.now group) }
{
    let codes = group_codes(setting, group);
    with_period(codes, frame_period)
}

// The waveform of `setting` with the frame period of each frame-rate code.
pub fn from_setting(setting: &[u8; 112], frame_period: &[u64; 16]) -> Waveform
    ensures { result ≡ waveform_of setting.now frame_period.now }
{
    let levels = Levels::from_setting(setting);
    let groups = [
        group_of(setting, frame_period, 0),
        group_of(setting, frame_period, 1),
        group_of(setting, frame_period, 2),
        group_of(setting, frame_period, 3),
        group_of(setting, frame_period, 4),
        group_of(setting, frame_period, 5),
        group_of(setting, frame_period, 6),
        group_of(setting, frame_period, 7),
        group_of(setting, frame_period, 8),
        group_of(setting, frame_period, 9),
    ];
    Waveform { groups, levels }
}
