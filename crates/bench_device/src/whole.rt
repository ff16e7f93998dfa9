// The whole device: the configuration that it is started with.
ghost use Rattle.std.specs.Prelude.{◌≡◌};
ghost use Rattle.bench_device.specs.Whole.{config_of};

use bench::made;
use config::{Ssd1677Config, Ssd1677Timing};
use glass::Optics;

// The frame period of every code in the reference that the device is held to (config.rs, `gdeq0426t82`); the default is another (#105).
const FRAME_PERIOD: u64 = 20_000_000;

// Cycles a second where the device is held to the reference: one a nanosecond (#101).
const FREQUENCY: u32 = 1_000_000_000;

// A panel of a size, wired as the GDEQ0426T82, at 25 °C on a 3.3 V supply.
pub(crate) fn config_of(width: u16, height: u16) -> Ssd1677Config
    ensures { result ≡ config_of width height }
{
    let panel = made::geometry_of(width, height, 0, false, true, false, true);
    let optics = Optics::default();
    let mut timing = Ssd1677Timing::default();
    timing.frame_period = [FRAME_PERIOD; 16];
    Ssd1677Config {
        panel,
        optics,
        timing,
        busy_active_high: true,
        ambient: 400,
        external_sensor: None,
        vci_millivolts: 3300,
        user_id: [0u8; 10],
        frequency: FREQUENCY,
    }
}
