// The functions that the library has inside others: the greys of all states, and the transfer of a setting, walked and combined.
ghost use Rattle.std.specs.Prelude.{◌≡◌, true, length};
ghost use Rattle.waveform.specs.declared.Drive.TheVariants.{Lut};
ghost use Rattle.waveform.specs.Walks.{whole_transfer};
ghost use Rattle.combine.specs.Settled.{settled};
ghost use Rattle.panel.specs.Pixels.{grays};
ghost use Rattle.panel.specs.Finish.{setting_transfer};
ghost use Rattle.bench.specs.Asked.{grayable, walkable, combinable};

use glass::Transfer;
use waveform::Drive;

pub(crate) fn paint_grays(states: &[i64], swing: i64, pixels: &mut [u8])
    requires { grayable swing (length states.now) (length pixels.old) ≡ true }
    ensures { pixels.new ≡ grays swing states.now }
{
    for i in 0..states.len() {
        pixels[i] = glass::gray(states[i], swing);
    }
}

pub(crate) fn transfer(
    setting: &[u8; 112],
    periods: &[u64; 16],
    lut: usize,
    swing: i64,
    positive_drives_black: bool,
    until: Option<u64>,
) -> Transfer
    requires { walkable periods.now lut ≡ true }
    ensures { result ≡ setting_transfer setting.now periods.now (Lut lut) swing positive_drives_black until }
{
    let decoded = setting::from_setting(setting, periods);
    walk::transfer(
        decoded,
        Drive::Lut(lut),
        swing,
        positive_drives_black,
        until,
    )
}

pub(crate) fn combined(
    setting: &[u8; 112],
    periods: &[u64; 16],
    lut: usize,
    swing: i64,
    positive_drives_black: bool,
) -> Transfer
    requires { combinable periods.now lut swing ≡ true }
    ensures { result ≡ settled (whole_transfer setting.now periods.now (Lut lut) swing positive_drives_black) }
{
    combine::transfer_whole(
        setting,
        periods,
        Drive::Lut(lut),
        swing,
        positive_drives_black,
    )
}
