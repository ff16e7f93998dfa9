// The lengths of what a call is lent.
#![tactic(auto)]

ghost use Rattle.std.specs.Prelude.{◌≡◌};
ghost use Rattle.guard_lengths.specs.Lengths.{fits, lengths_fit, counts_fit, glass_lent, glass_log_lent, planes_log_lent, all_lent};

use config::PanelGeometry;
use counts::GREYS;
use diagnostic::LOG_BYTES;
use ram::PLANE_BYTES;

// Every call is lent the buffers of the glass; each of the four below adds to the one before it.
#[derive(Clone, Copy)]
pub struct Lengths {
    pub states: usize,
    pub luts: usize,
    pub pixels: usize,
    pub counts: usize,
    pub log: Option<usize>,
    pub black_white: Option<usize>,
    pub red: Option<usize>,
    pub gates: Option<usize>,
}

// Lent to `advance`.
pub fn glass_lent(states: usize, luts: usize, pixels: usize, counts: usize) -> Lengths
    ensures { result ≡ glass_lent states luts pixels counts }
{
    Lengths {
        states,
        luts,
        pixels,
        counts,
        log: None,
        black_white: None,
        red: None,
        gates: None,
    }
}

// Lent to `set_reset`.
pub fn glass_log_lent(
    states: usize,
    luts: usize,
    pixels: usize,
    counts: usize,
    log: usize,
) -> Lengths
    ensures { result ≡ glass_log_lent states luts pixels counts log }
{
    Lengths {
        log: Some(log),
        ..glass_lent(states, luts, pixels, counts)
    }
}

// Lent to `write_data` and `read_data`.
pub fn planes_log_lent(
    states: usize,
    luts: usize,
    pixels: usize,
    counts: usize,
    log: usize,
    black_white: usize,
    red: usize,
) -> Lengths
    ensures { result ≡ planes_log_lent states luts pixels counts log black_white red }
{
    Lengths {
        black_white: Some(black_white),
        red: Some(red),
        ..glass_log_lent(states, luts, pixels, counts, log)
    }
}

// Lent to `new` and `write_command`.
pub fn all_lent(
    states: usize,
    luts: usize,
    pixels: usize,
    counts: usize,
    log: usize,
    black_white: usize,
    red: usize,
    gates: usize,
) -> Lengths
    ensures { result ≡ all_lent states luts pixels counts log black_white red gates }
{
    Lengths {
        gates: Some(gates),
        ..planes_log_lent(states, luts, pixels, counts, log, black_white, red)
    }
}

fn fits(lent: Option<usize>, right: usize) -> bool
    ensures { result ≡ fits lent right }
{
    match lent {
        None => true,
        Some(length) => length == right,
    }
}

pub fn lengths_fit(panel: PanelGeometry, lengths: Lengths) -> bool
    ensures { result ≡ lengths_fit panel lengths }
{
    let rows = panel.height as usize;
    let pixels = panel.width as usize * rows;
    let log = lengths.log;
    let black_white = lengths.black_white;
    let red = lengths.red;
    let gates = lengths.gates;
    let log_fits = fits(log, LOG_BYTES);
    let black_white_fits = fits(black_white, PLANE_BYTES);
    let red_fits = fits(red, PLANE_BYTES);
    let gates_fit = fits(gates, rows);
    (lengths.states == pixels)
        & (lengths.luts == pixels)
        & (lengths.pixels == pixels)
        & log_fits
        & black_white_fits
        & red_fits
        & gates_fit
}

// 15: the table of counts has a place for each grey (#108).
pub fn counts_fit(lengths: Lengths) -> bool
    ensures { result ≡ counts_fit lengths }
{
    lengths.counts == GREYS
}
