// What the functions take, made of numbers.
ghost use Rattle.std.specs.Prelude.{◌≡◌};
ghost use Rattle.bench.specs.Made.{until_of, geometry_of, scan_of, panel_of, kind_of, display_of, header_of};

use config::{GateScan, PanelGeometry};
use glass::{PanelImage, RefreshKind};
use panel::{Display, Panel};
use scan::{PlaneOption, Scan};

pub(crate) fn until_of(cut: bool, until: u64) -> Option<u64>
    ensures { result ≡ until_of cut until }
{
    if cut {
        return Some(until);
    }
    None
}

pub fn geometry_of(
    width: u16,
    height: u16,
    first_source: u16,
    columns_reversed: bool,
    sm: bool,
    gd: bool,
    rows_reversed: bool,
) -> PanelGeometry
    ensures { result ≡ geometry_of width height first_source columns_reversed sm gd rows_reversed }
{
    let native_scan = GateScan { sm, gd };
    PanelGeometry {
        width,
        height,
        first_source,
        columns_reversed,
        native_scan,
        rows_reversed,
    }
}

pub(crate) fn scan_of(lines: u16, sm: bool, gd: bool, options: u8) -> Scan
    ensures { result ≡ scan_of lines sm gd options }
{
    let order = GateScan { sm, gd };
    let red = PlaneOption::from_nibble(options / 16);
    let black_white = PlaneOption::from_nibble(options);
    Scan {
        lines,
        order,
        red,
        black_white,
    }
}

pub(crate) fn panel_of(swing: i64, border: i64, width: u16, height: u16, generation: u64) -> Panel
    ensures { result ≡ panel_of swing border width height generation }
{
    let image = PanelImage {
        width,
        height,
        border: 0,
        generation,
        kind: RefreshKind::PowerOn,
        interrupted: false,
        started: 0,
        at: 0,
    };
    Panel {
        swing,
        border,
        image,
    }
}

fn kind_of(partial: bool) -> RefreshKind
    ensures { result ≡ kind_of partial }
{
    if partial {
        return RefreshKind::Partial;
    }
    RefreshKind::Full
}

pub(crate) fn display_of(setting: &[u8; 112], register: u8, partial: bool, started: u64) -> Display
    ensures { result ≡ display_of setting.now register partial started }
{
    let bytes = *setting;
    let kind = kind_of(partial);
    Display {
        started,
        ends: 0,
        kind,
        setting: bytes,
        border: register,
    }
}

// An image's header as numbers.
pub fn header_of(image: PanelImage) -> [u64; 8]
    ensures { result ≡ header_of image }
{
    [
        image.width as u64,
        image.height as u64,
        image.border as u64,
        image.generation,
        image.kind as u64,
        image.interrupted as u64,
        image.started,
        image.at,
    ]
}
