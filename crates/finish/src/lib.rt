// The end of a display, whole or cut (panel.rs, `Panel::finish`).
#![tactic(auto)]

use counts::Counts;
use glass::PanelImage;
use panel::{Display, Panel};

pub mod refresh;

ghost use Rattle.std.specs.Prelude.{◌≡◌, pos, ◌≤ℤ◌};
ghost use Rattle.counts.specs.Counts.{picture};
ghost use Rattle.panel.specs.Finish.{Finishable, glass, ending, was_cut, published, finished};

// A hardware reset cut the display short.
fn is_cut(until: Option<u64>) -> bool
    ensures { result ≡ was_cut until }
{
    match until {
        None => false,
        Some(_) => true,
    }
}

// The image that a display leaves behind, dated `at`.
fn publish(panel: Panel, display: Display, at: u64, until: Option<u64>) -> Panel
    requires { pos 1 ≤ℤ panel.swing }
    ensures { result ≡ published display at until panel }
{
    let old = panel.image;
    let border = glass::gray(panel.border, panel.swing);
    let generation = old.generation.saturating_add(1);
    let interrupted = is_cut(until);
    let kind = display.kind;
    let image = PanelImage {
        width: old.width,
        height: old.height,
        border,
        generation,
        kind,
        interrupted,
        started: display.started,
        at,
    };
    let mut published = panel;
    published.image = image;
    published
}

// Applies the display, whole or up to a cut, to the glass, counts its greys, and publishes the image, dated `at`.
pub fn finish(
    panel: Panel,
    display: Display,
    positive_drives_black: bool,
    frame_period: [u64; 16],
    at: u64,
    until: Option<u64>,
    states: &mut [i64],
    luts: &[u8],
    pixels: &mut [u8],
    counts: &mut Counts,
) -> Panel
    requires { Finishable frame_period panel.swing states.old luts.now pixels.old counts.old }
    ensures { glass result states.new (picture pixels.new counts.new) ≡ finished (ending display positive_drives_black frame_period at until) luts.now (glass panel states.old (picture pixels.old counts.old)) }
{
    let refresh = refresh::display_drive(
        panel,
        display,
        positive_drives_black,
        frame_period,
        until,
    );
    refresh::repaint(refresh, luts, &mut states[..], &mut pixels[..]);
    counts::count(&pixels[..], counts);
    let moved = refresh::drive_border(refresh, display.border, panel);
    publish(moved, display, at, until)
}
