// What refreshes in a row leave on the glass.
ghost use Rattle.std.specs.Prelude.{◌≡◌, ◌^◌, ◌<◌, ◌≤◌, length};

use crate::answers::Answers;
use crate::question::Question;
use crate::waves;
use crate::wiring::Refresh;
use config::{GateScan, PanelGeometry};
use counts::Counts;
use glass::{Optics, Provenance, RefreshKind};
use panel::{Display, Panel};
use scan::{PlaneOption, Scan};

// Pixels of a panel at most.
const PIXELS: usize = 1024;

fn geometry(question: &Question) -> PanelGeometry {
    PanelGeometry {
        width: question.word(0),
        height: question.word(1),
        first_source: 0,
        columns_reversed: false,
        native_scan: GateScan::default(),
        rows_reversed: false,
    }
}

// A swing of 0, which a start refuses, counts as 1.
fn optics(question: &Question) -> Optics
    ensures { 1 ≤ result.full_swing }
{
    Optics {
        provenance: Provenance::Approximation,
        full_swing: question.number(2).max(1),
        positive_drives_black: question.truth(3),
        initial_gray: question.byte(4),
    }
}

// The border register of a question: 0 to 3 a LUT, 4 to 7 a fixed code, else nothing.
fn border(n: u8) -> u8 {
    match n {
        0..=3 => n,
        4..=7 => 64 + 16 * (n - 4),
        _ => 128,
    }
}

fn display(question: &Question) -> Display {
    Display {
        started: 0,
        ends: 0,
        kind: RefreshKind::Full,
        setting: question.setting(26),
        border: border(question.byte(5)),
    }
}

// The first refresh, whose LUTs the others keep.
fn first(question: &Question) -> Refresh {
    Refresh {
        geometry: geometry(question),
        scan: Scan {
            lines: config::RAM_GATES,
            order: GateScan::default(),
            red: PlaneOption::Normal,
            black_white: PlaneOption::Normal,
        },
        seed: question.double_word(9),
    }
}

// A panel at power-on, and up to three refreshes, where every frame lasts.
fn refreshed(
    question: &Question,
    states: &mut [i64],
    luts: &mut [u8],
    pixels: &mut [u8],
    counts: &mut Counts,
) -> Panel
    requires states_len_bound { length states.old < 2 ^ 32 }
    requires luts_len { length luts.old ≡ length states.old }
    requires pixels_len { length pixels.old ≡ length states.old }
{
    let mut panel = panel_start::new(
        geometry(question),
        optics(question),
        &mut states[..],
        &mut luts[..],
        &mut pixels[..],
        counts,
    );
    first(question).fill(&mut luts[..]);
    let periods = question.periods(10);
    for _ in 0..question.byte(6).min(3) {
        if waves::lasting(periods) && 1 <= panel.swing {
            panel = finish::finish(
                panel,
                display(question),
                question.truth(3),
                periods,
                0,
                question.option(7),
                &mut states[..],
                luts,
                &mut pixels[..],
                counts,
            );
        }
    }
    panel
}

fn put(answers: &mut Answers, panel: Panel, states: &[i64], pixels: &[u8]) {
    answers.number(hash::of_states(states));
    answers.number(hash::of_bytes(pixels));
    answers.signed(panel.border);
    answers.number(u64::from(panel.image.border));
    answers.number(panel.image.generation);
}

// No number where the panel is too large.
fn finish(answers: &mut Answers, question: &Question) {
    let mut states = [0i64; PIXELS];
    let mut luts = [0u8; PIXELS];
    let mut pixels = [0u8; PIXELS];
    let mut counts = [0u32; 256];
    let area = first(question).area();
    if area <= PIXELS {
        let panel = refreshed(
            question,
            &mut states[..area],
            &mut luts[..area],
            &mut pixels[..area],
            &mut counts,
        );
        put(answers, panel, &states[..area], &pixels[..area]);
    }
}

pub fn answer(answers: &mut Answers, question: &Question) -> bool {
    let known = question.asks(b"finish", 138);
    if known {
        finish(answers, question);
    }
    known
}
