// The parts of a display's end, whole or cut: its transfers, made once, and what they move.
ghost use Rattle.std.specs.Prelude.{◌≡◌, ◌<◌, pos, ◌≤ℤ◌};
ghost use Rattle.waveform.specs.Walks.{Walkable};
ghost use Rattle.combine.specs.Settled.{Alike};
ghost use Rattle.panel.specs.Border.{border_drive};
ghost use Rattle.panel.specs.Pixels.{states_by, grays};
ghost use Rattle.panel.specs.Finish.{border_by, with_border};
ghost use Rattle.finish.specs.Refresh.{FourAlike, Refreshable, Repaintable, display_drive, waveform_in, transfer_in, in_table};
ghost use Rattle.finish.specs.Moves.{Movable, MovesOf};

use glass::Transfer;
use glass_tables::{Move, greys};
use panel::{Display, Panel};
use waveform::Drive;

// What the transfers of a display are made from.
#[derive(Clone, Copy)]
pub struct DisplayDrive {
    pub setting: [u8; 112],
    pub frame_period: [u64; 16],
    pub swing: i64,
    pub positive_drives_black: bool,
    pub until: Option<u64>,
}

// The display's 112 setting bytes, with the frame period of each frame-rate code.
pub(crate) fn display_drive(
    panel: Panel,
    display: Display,
    positive_drives_black: bool,
    frame_period: [u64; 16],
    until: Option<u64>,
) -> DisplayDrive
    ensures { result ≡ display_drive display.setting frame_period panel.swing positive_drives_black until }
{
    let setting = display.setting;
    DisplayDrive {
        setting,
        frame_period,
        swing: panel.swing,
        positive_drives_black,
        until,
    }
}

fn transfer(refresh: DisplayDrive, drive: Drive) -> Transfer
    requires { Walkable (waveform_in refresh) drive × (pos 1 ≤ℤ refresh.swing) }
    ensures alike { Alike result (transfer_in refresh drive) }
    ensures pos_bound { pos 0 ≤ℤ result.hi }
{
    let setting = refresh.setting;
    let frame_period = refresh.frame_period;
    let until = refresh.until;
    combine::transfer(
        &setting,
        &frame_period,
        drive,
        refresh.swing,
        refresh.positive_drives_black,
        until,
    )
}

// Those of LUTs 0 to 3.
fn transfers(refresh: DisplayDrive) -> [Transfer; 4]
    requires { Refreshable refresh }
    ensures four_alike { FourAlike refresh result }
    ensures movable { Movable result }
{
    let lut0 = transfer(refresh, Drive::Lut(0));
    let lut1 = transfer(refresh, Drive::Lut(1));
    let lut2 = transfer(refresh, Drive::Lut(2));
    let lut3 = transfer(refresh, Drive::Lut(3));
    [lut0, lut1, lut2, lut3]
}

// The moves of LUTs 0 to 3, and for every other byte one that leaves each state, so that no pixel tests whether it is driven.
fn moves(transfers: [Transfer; 4]) -> [Move; 256]
    requires { Movable transfers }
    ensures { MovesOf transfers result }
{
    let lut0 = transfers[0];
    let lut1 = transfers[1];
    let lut2 = transfers[2];
    let lut3 = transfers[3];
    let undriven = Transfer {
        add: 0,
        lo: i64::MIN,
        hi: i64::MAX,
    };
    let left = glass_tables::move_of(undriven);
    let mut moves = [left; 256];
    moves[0] = glass_tables::move_of(lut0);
    moves[1] = glass_tables::move_of(lut1);
    moves[2] = glass_tables::move_of(lut2);
    moves[3] = glass_tables::move_of(lut3);
    moves
}

// A LUT's place in the table of moves.
fn place(lut: u8) -> usize
    ensures { (result ≡ lut) × (result < 256) }
{
    lut as usize
}

// One pass: each driven state moved, and every pixel the grey of its state.
fn paint(
    refresh: DisplayDrive,
    transfers: [Transfer; 4],
    luts: &[u8],
    states: &mut [i64],
    pixels: &mut [u8],
)
    requires repaintable { Repaintable refresh luts.now states.old pixels.old }
    requires movable { Movable transfers }
    ensures states_after { states.new ≡ states_by (in_table transfers) luts.now states.old }
    ensures pixels_after { pixels.new ≡ grays refresh.swing (states_by (in_table transfers) luts.now states.old) }
{
    let swing = refresh.swing;
    let shift = greys::shift(swing);
    let firsts = greys::firsts(swing, shift);
    let ends = greys::ends(swing);
    let moves = moves(transfers);
    for i in 0..states.len() {
        // Read here: handed to a function, the table would be copied for every pixel.
        let at = place(luts[i]);
        let step = moves[at];
        let state = step.apply(states[i]);
        states[i] = state;
        pixels[i] = greys::gray_of(&firsts, &ends, shift, swing, state);
    }
}

// All pixels, by transfers made once.
pub(crate) fn repaint(refresh: DisplayDrive, luts: &[u8], states: &mut [i64], pixels: &mut [u8])
    requires { Repaintable refresh luts.now states.old pixels.old }
    ensures states_after { states.new ≡ states_by (λ lut. transfer_in refresh (Drive.Lut lut)) luts.now states.old }
    ensures pixels_after { pixels.new ≡ grays refresh.swing (states_by (λ lut. transfer_in refresh (Drive.Lut lut)) luts.now states.old) }
{
    let transfers = transfers(refresh);
    paint(refresh, transfers, luts, &mut states[..], &mut pixels[..]);
}

// The border, driven or left.
pub(crate) fn drive_border(refresh: DisplayDrive, border: u8, panel: Panel) -> Panel
    requires { Refreshable refresh }
    ensures { result ≡ with_border panel (border_by (transfer_in refresh) (border_drive border) panel.border) }
{
    let drives = panel::border_drive(border);
    match drives {
        Some(drive) => {
            let transfer = transfer(refresh, drive);
            let state = transfer.apply(panel.border);
            let mut moved = panel;
            moved.border = state;
            moved
        }
        None => panel,
    }
}
