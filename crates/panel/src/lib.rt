// The glass behind the controller: its optical states and the image published after each refresh (panel.rs).
#![tactic(auto)]

ghost use Rattle.std.specs.Prelude.{◌≡◌};
ghost use Rattle.panel.specs.Border.{border_drive};
ghost use Rattle.panel.specs.End.{display_end};

use glass::{PanelImage, RefreshKind};
use waveform::Drive;

// The LUT of a pixel that no gate or source drives in a refresh.
pub const UNDRIVEN: u8 = 255;

// A display in progress. Its chosen LUTs are a lent buffer; the setting is the one that it began with.
#[derive(Clone, Copy)]
pub struct Display {
    // When driving starts, and when it ends, in cycles of the time base.
    pub started: u64,
    pub ends: u64,
    pub kind: RefreshKind,
    pub setting: [u8; 112],
    // The border register (0x3C) that it began with.
    pub border: u8,
}

// When the display in progress ends, if there is one.
pub fn end_of(display: Option<Display>) -> Option<u64>
    ensures { result ≡ display_end display }
{
    display.map(|display| display.ends)
}

// The glass but for its lent buffers.
#[derive(Clone, Copy)]
pub struct Panel {
    // The smaller of full swing and 2^63 − 1.
    pub swing: i64,
    // The border's optical state.
    pub border: i64,
    pub image: PanelImage,
}

// What drives the border during the display (0x3C): a LUT, a fixed level, or nothing.
pub fn border_drive(border: u8) -> Option<Drive>
    ensures { result ≡ border_drive border }
{
    match border >> 6 {
        0 => Some(Drive::Lut(border as usize & 3)),
        1 => Some(Drive::Fixed((border >> 4) & 3)),
        _ => None,
    }
}
