// The proved functions as a Rust or a C program calls them, to be timed beside the reference. Each tests what the function under it
// asks, and changes nothing where the test fails.
#![tactic(auto)]

use ram::{Counter, Entry, Window};

mod asked;
mod display;
pub mod made;
mod memory;

ghost use Rattle.std.specs.Prelude.{◌≡◌, length};
ghost use Rattle.numbers.specs.Choice.{pick};
ghost use Rattle.numbers.specs.Lists.{tab};
ghost use Rattle.auto_write.specs.Auto.{auto_written};
ghost use Rattle.gates.specs.Gates.{gates_stored};
ghost use Rattle.scan.specs.Luts.{lut_of};
ghost use Rattle.waveform.specs.declared.Drive.TheVariants.{Lut};
ghost use Rattle.waveform.specs.Walks.{whole_transfer};
ghost use Rattle.combine.specs.Settled.{settled};
ghost use Rattle.counts.specs.Counts.{picture};
ghost use Rattle.panel.specs.Pixels.{grays};
ghost use Rattle.panel.specs.Finish.{setting_transfer, glass, ending, finished};
ghost use Rattle.bench.specs.Asked.{grayable, walkable, combinable, scannable, finishable};
ghost use Rattle.bench.specs.Runs.{run, ran_over, counter_of, window_of, entry_of};
ghost use Rattle.bench.specs.Made.{until_of, numbers_of, geometry_of, scan_of, panel_of, display_of, shown, shown_of};

// The grey of each state.
pub fn proved_grays(states: &[i64], swing: i64, pixels: &mut [u8]) -> bool
    ensures value { result ≡ grayable swing (length states.now) (length pixels.old) }
    ensures pixels_after { pixels.new ≡ pick result (grays swing states.now) pixels.old }
{
    if asked::can_gray(swing, states.len(), pixels.len()) {
        display::paint_grays(states, swing, &mut pixels[..]);
        return true;
    }
    false
}

// The transfer of a setting's LUT, walked, whole or up to a cut: what it adds, and its two ends.
pub fn proved_transfer(
    setting: &[u8; 112],
    periods: &[u64; 16],
    lut: usize,
    swing: i64,
    positive_drives_black: bool,
    cut: bool,
    until: u64,
    out: &mut [i64; 3],
) -> bool
    ensures value { result ≡ walkable periods.now lut }
    ensures out_after { out.new ≡ pick result (numbers_of (setting_transfer setting.now periods.now (Lut lut) swing positive_drives_black (until_of cut until))) out.old }
{
    if asked::can_walk(periods, lut) {
        let until = made::until_of(cut, until);
        let t = display::transfer(setting, periods, lut, swing, positive_drives_black, until);
        *out = [t.add, t.lo, t.hi];
        return true;
    }
    false
}

// The same of a whole display, each group combined with itself: what it adds is 0 where its ends have met.
pub fn proved_combined(
    setting: &[u8; 112],
    periods: &[u64; 16],
    lut: usize,
    swing: i64,
    positive_drives_black: bool,
    out: &mut [i64; 3],
) -> bool
    ensures value { result ≡ combinable periods.now lut swing }
    ensures out_after { out.new ≡ pick result (numbers_of (settled (whole_transfer setting.now periods.now (Lut lut) swing positive_drives_black))) out.old }
{
    if asked::can_combine(periods, lut, swing) {
        let whole = display::combined(setting, periods, lut, swing, positive_drives_black);
        *out = [whole.add, whole.lo, whole.hi];
        return true;
    }
    false
}

// The gate of every row, stored in a buffer of any length.
pub fn proved_gates(
    gates: &mut [u16],
    width: u16,
    height: u16,
    first_source: u16,
    columns_reversed: bool,
    native_sm: bool,
    native_gd: bool,
    rows_reversed: bool,
)
    ensures { gates.new ≡ gates_stored (geometry_of width height first_source columns_reversed native_sm native_gd rows_reversed) height gates.old }
{
    let geometry = made::geometry_of(
        width,
        height,
        first_source,
        columns_reversed,
        native_sm,
        native_gd,
        rows_reversed,
    );
    scan::gate_of_row(&mut gates[..], geometry);
}

// The LUT of every pixel.
pub fn proved_start(
    luts: &mut [u8],
    gates: &[u16],
    red: &[u8],
    black_white: &[u8],
    width: u16,
    height: u16,
    first_source: u16,
    columns_reversed: bool,
    native_sm: bool,
    native_gd: bool,
    rows_reversed: bool,
    lines: u16,
    sm: bool,
    gd: bool,
    options: u8,
) -> bool
    ensures value { result ≡ scannable (length luts.old) (length gates.now) (length red.now) (length black_white.now) width height first_source }
    ensures luts_after { luts.new ≡ pick result (tab (length luts.old) (lut_of gates.now red.now black_white.now (geometry_of width height first_source columns_reversed native_sm native_gd rows_reversed) (scan_of lines sm gd options))) luts.old }
{
    if asked::can_scan(
        luts.len(),
        gates.len(),
        red.len(),
        black_white.len(),
        width,
        height,
        first_source,
    ) {
        let geometry = made::geometry_of(
            width,
            height,
            first_source,
            columns_reversed,
            native_sm,
            native_gd,
            rows_reversed,
        );
        let scan = made::scan_of(lines, sm, gd, options);
        scan::start(&mut luts[..], gates, red, black_white, geometry, scan);
        return true;
    }
    false
}

// The end of a display: the border's state after it, and how often each grey now occurs. The header is that of the image published.
pub fn proved_finish(
    states: &mut [i64],
    luts: &[u8],
    pixels: &mut [u8],
    counts: &mut [u32],
    setting: &[u8; 112],
    periods: &[u64; 16],
    swing: i64,
    positive_drives_black: bool,
    register: u8,
    partial: bool,
    border: i64,
    width: u16,
    height: u16,
    generation: u64,
    started: u64,
    at: u64,
    cut: bool,
    until: u64,
    header: &mut [u64; 8],
) -> i64
    ensures { shown result states.new (picture pixels.new counts.new) header.new ≡ pick (finishable periods.now swing (length states.old) (length luts.now) (length pixels.old) (length counts.old)) (shown_of (finished (ending (display_of setting.now register partial started) positive_drives_black periods.now at (until_of cut until)) luts.now (glass (panel_of swing border width height generation) states.old (picture pixels.old counts.old)))) (shown border states.old (picture pixels.old counts.old) header.old) }
{
    if asked::can_finish(
        periods,
        swing,
        states.len(),
        luts.len(),
        pixels.len(),
        counts.len(),
    ) {
        // The test has seen the length.
        let Some(counts) = counts.as_mut_array() else {
            return border;
        };
        let panel = made::panel_of(swing, border, width, height, generation);
        let display = made::display_of(setting, register, partial, started);
        let until = made::until_of(cut, until);
        let finished = finish::finish(
            panel,
            display,
            positive_drives_black,
            *periods,
            at,
            until,
            &mut states[..],
            luts,
            &mut pixels[..],
            counts,
        );
        let image = finished.image;
        *header = made::header_of(image);
        return finished.border;
    }
    border
}

// The auto write of a plane.
pub fn proved_auto_write(plane: &mut [u8], parameter: u8)
    ensures { plane.new ≡ auto_written parameter plane.old }
{
    auto_write::auto_write(&mut plane[..], parameter);
}

// A run of data bytes; the counter is moved past them.
pub fn proved_write(
    plane: &mut [u8],
    bytes: &[u8],
    counter: &mut [u16; 2],
    window: &[u16; 4],
    mode: u8,
)
    ensures { run (counter_of counter.new) plane.new ≡ ran_over (window_of window.now) (entry_of mode) bytes.now (length bytes.now) (run (counter_of counter.old) plane.old) }
{
    let bounds = Window {
        x_start: window[0],
        x_end: window[1],
        y_start: window[2],
        y_end: window[3],
    };
    let first = Counter {
        x: counter[0],
        y: counter[1],
    };
    let last = memory::write_all(&mut plane[..], bytes, first, bounds, Entry(mode));
    *counter = [last.x, last.y];
}
