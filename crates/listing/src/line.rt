// The lines of a listing (SCOPE, Listing).
ghost use Rattle.std.specs.Prelude.{◌≡◌, ◌<◌};
ghost use Rattle.waveform.specs.Voltages.{AllListable};
ghost use Rattle.column.specs.Columns.{gathered};
ghost use Rattle.listing.specs.Listing.{drive_of, drives_of, head_of, line_of, phase_text, group_text, room};

use crate::Text;
use waveform::{Drive, Driving, Group, Levels};

// The period of every frame-rate code, in nanoseconds: the listing's own, which is not the default (#105).
pub(crate) const PERIOD: u64 = 20_000_000;

// Source less VCOM of a LUT in a phase, before the panel's sign.
fn drive_of(levels: Levels, group: Group, phase: usize, lut: usize) -> i64
    requires phase { phase < 4 }
    requires lut { lut < 5 }
    requires listable { AllListable levels }
    ensures { result ≡ drive_of levels group phase lut }
{
    let driving = Driving {
        levels,
        drive: Drive::Lut(lut),
        swing: 0,
        positive_drives_black: false,
    };
    walk::phases::phase_of(driving, group, phase).millivolts
}

// The drives of LUT 0 to 3.
fn put_drives(text: &mut Text, levels: Levels, group: Group, phase: usize)
    requires phase { phase < 4 }
    requires listable { AllListable levels }
    ensures { text.new ≡ gathered room text.old (drives_of levels group phase) }
{
    for lut in 0..4 {
        text.put_whole(7, drive_of(levels, group, phase, lut));
    }
}

// The first five columns.
fn put_head(text: &mut Text, group: Group, number: usize, phase: usize)
    requires { phase < 4 }
    ensures { text.new ≡ gathered room text.old (head_of group number phase) }
{
    text.put_number(3, number as u64);
    text.put_number(3, phase as u64);
    text.put_number(4, u64::from(group.frames[phase]));
    text.put_number(4, u64::from(group.repeats));
    text.put_number(9, PERIOD);
}

fn put_line(text: &mut Text, levels: Levels, group: Group, number: usize, phase: usize)
    requires phase { phase < 4 }
    requires listable { AllListable levels }
    ensures { text.new ≡ gathered room text.old (line_of levels group number phase) }
{
    put_head(text, group, number, phase);
    put_drives(text, levels, group, phase);
    text.put(b'\n');
}

// A line, if the phase has frames.
fn put_phase(text: &mut Text, levels: Levels, group: Group, number: usize, phase: usize)
    requires phase { phase < 4 }
    requires listable { AllListable levels }
    ensures { text.new ≡ gathered room text.old (phase_text levels group number phase) }
{
    if group.frames[phase] != 0 {
        put_line(text, levels, group, number, phase);
    }
}

// The lines of a group.
pub(crate) fn put_group(text: &mut Text, levels: Levels, group: Group, number: usize)
    requires { AllListable levels }
    ensures { text.new ≡ gathered room text.old (group_text levels group number) }
{
    for phase in 0..4 {
        put_phase(text, levels, group, number, phase);
    }
}
