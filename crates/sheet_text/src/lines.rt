// The lines of a drive sheet as text (docs/drive-sheet.md).
ghost use Rattle.std.specs.Prelude.{◌≡◌, ◌<◌};
ghost use Rattle.waveform.specs.Phases.{joined};
ghost use Rattle.column.specs.Columns.{gathered};
ghost use Rattle.sheet_text.specs.Text.{digits_text, codes_text, frames_text, group_line, group_lines, gate_line, voltage_line, voltage_lines, sheet_text, text_bytes};

use crate::Text;
use drive_sheet::Sheet;
use waveform::GroupCodes;

fn put_codes(text: &mut Text, group: GroupCodes, lut: usize)
    requires { lut < 5 }
    ensures { text.new ≡ gathered text_bytes text.old (digits_text group lut) }
{
    for code in &group.codes[4 * lut..4 * lut + 4] {
        text.put_number(1, u64::from(*code));
    }
}

fn put_luts(text: &mut Text, group: GroupCodes)
    ensures { text.new ≡ gathered text_bytes text.old (joined 5 (codes_text group)) }
{
    for lut in 0..5 {
        text.put(b' ');
        put_codes(text, group, lut);
    }
}

fn put_frames(text: &mut Text, group: GroupCodes)
    ensures { text.new ≡ gathered text_bytes text.old (frames_text group) }
{
    for frames in group.frames {
        text.put_number(4, u64::from(frames));
    }
}

fn put_group(text: &mut Text, group: GroupCodes, number: usize)
    ensures { text.new ≡ gathered text_bytes text.old (group_line group number) }
{
    text.put_number(3, number as u64);
    put_frames(text, group);
    text.put_number(4, u64::from(group.repeats));
    text.put_number(3, group.frame_rate as u64);
    put_luts(text, group);
    text.put(b'\n');
}

fn put_groups(text: &mut Text, sheet: Sheet)
    ensures { text.new ≡ gathered text_bytes text.old (group_lines sheet) }
{
    for number in 0..10 {
        put_group(text, sheet.groups[number], number);
    }
}

fn put_gate(text: &mut Text, gate: u8)
    ensures { text.new ≡ gathered text_bytes text.old (gate_line gate) }
{
    text.put_text(b"gate");
    text.put_number(7, u64::from(gate));
    text.put(b'\n');
}

fn put_voltage(text: &mut Text, name: &[u8; 4], millivolts: i64)
    ensures { text.new ≡ gathered text_bytes text.old (voltage_line name.now millivolts) }
{
    text.put_text(name);
    text.put_whole(7, millivolts);
    text.put(b'\n');
}

fn put_voltages(text: &mut Text, sheet: Sheet)
    ensures { text.new ≡ gathered text_bytes text.old (voltage_lines sheet) }
{
    put_voltage(text, b"VSH1", sheet.vsh1);
    put_voltage(text, b"VSH2", sheet.vsh2);
    put_voltage(text, b"VSL ", sheet.vsl);
    put_voltage(text, b"VCOM", sheet.vcom);
}

pub(crate) fn text_of(sheet: Sheet) -> Text
    ensures { result ≡ sheet_text sheet }
{
    let mut text = Text::new();
    put_groups(&mut text, sheet);
    put_gate(&mut text, sheet.gate);
    put_voltages(&mut text, sheet);
    text
}
