// The glass at power-on (panel.rs, `Panel::new`).
#![tactic(auto)]

ghost use Rattle.std.specs.Prelude.{◌≡◌, ◌≤◌, ◌<◌, ◌^◌, length};
ghost use Rattle.numbers.specs.Lists.{tab};
ghost use Rattle.counts.specs.Counts.{picture};
ghost use Rattle.panel.specs.Start.{fresh, panel_at_power_on, power_on};

use config::PanelGeometry;
use counts::Counts;
use glass::{Optics, PanelImage, RefreshKind};
use panel::{Panel, UNDRIVEN};

fn at_power_on(geometry: PanelGeometry, optics: Optics) -> Panel
    requires { 1 ≤ optics.full_swing }
    ensures { result ≡ panel_at_power_on geometry optics }
{
    let swing = numbers::to_i64(optics.full_swing);
    let border = glass::level(optics.initial_gray, swing);
    let image = PanelImage {
        width: geometry.width,
        height: geometry.height,
        border: optics.initial_gray,
        generation: 0,
        kind: RefreshKind::PowerOn,
        interrupted: false,
        started: 0,
        at: 0,
    };
    Panel {
        swing,
        border,
        image,
    }
}

fn fill_states(states: &mut [i64], state: i64)
    ensures { states.new ≡ tab (length states.old) (λ _. state) }
{
    for i in 0..states.len() {
        states[i] = state;
    }
}

// The glass at power-on, and its buffers: 256 counts, and so few pixels that 32 bits count them.
pub fn new(
    geometry: PanelGeometry,
    optics: Optics,
    states: &mut [i64],
    luts: &mut [u8],
    pixels: &mut [u8],
    counts: &mut Counts,
) -> Panel
    requires bound { 1 ≤ optics.full_swing }
    requires pixels_len_bound { length pixels.old < 2 ^ 32 }
    ensures { fresh result states.new luts.new (picture pixels.new counts.new) ≡ power_on geometry optics (length states.old) (length luts.old) (length pixels.old) }
{
    let panel = at_power_on(geometry, optics);
    let gray = glass::gray(panel.border, panel.swing);
    fill_states(&mut states[..], panel.border);
    ram::fill(&mut luts[..], UNDRIVEN);
    counts::fill(counts, gray, pixels.len() as u32);
    ram::fill(&mut pixels[..], gray);
    panel
}
