// The line of an entry: its number, and the charge of LUT 0 to 3 (SCOPE, Charge).
ghost use Rattle.std.specs.Prelude.{◌≡◌};
ghost use Rattle.waveform.specs.declared.Drive.TheVariants.{Lut};
ghost use Rattle.waveform.specs.Phases.{phases_of};
ghost use Rattle.column.specs.Columns.{gathered};
ghost use Rattle.charges.specs.Charge.{drive_sum, BoundedWaveform, AllShort};
ghost use Rattle.charges.specs.Report.{sums_text, charge_line, charge_line_bytes};

use crate::{LINE_BYTES, SETTING_BYTES};
use column::Columns;
use waveform::Waveform;

type Line = Columns<LINE_BYTES>;

fn put_sums(line: &mut Line, waveform: Waveform)
    requires { BoundedWaveform waveform }
    ensures { line.new ≡ gathered charge_line_bytes line.old (sums_text (λ lut. drive_sum (phases_of waveform (Lut lut)))) }
{
    for lut in 0..4 {
        line.put_whole(21, crate::sum::charge_of(waveform, lut));
    }
}

pub(crate) fn line_of(setting: &[u8; SETTING_BYTES], entry: usize, frame_period: &[u64; 16]) -> Line
    requires { AllShort frame_period.now }
    ensures { result ≡ charge_line frame_period.now setting.now entry }
{
    let waveform = setting::from_setting(setting, frame_period);
    let mut line = Line::new();
    line.put_number(3, entry as u64);
    put_sums(&mut line, waveform);
    line.put(b'\n');
    line
}
