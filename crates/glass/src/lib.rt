// The glass of an e-paper panel, whatever controller drives it: its optics, the image published after a refresh, and the
// arithmetic that moves a pixel's optical state (glass.rs).
#![tactic(auto)]

ghost use Rattle.std.specs.Prelude.{◌≡◌, ◌+◌, ◌*◌, ◌/◌, ◌<◌, ◌≤◌, pos, ◌≤ℤ◌};
ghost use Rattle.glass.specs.Optics.{default_optics};
ghost use Rattle.glass.specs.Transfers.{identity_t, shift_t, then_t, apply_t};
ghost use Rattle.glass.specs.Greys.{level_z, gray_z};

// Where a set of parameters comes from, for an interface to say whether it shows a measured panel.
#[derive(Clone, Copy)]
pub enum Provenance {
    // Built for the model where no source gives the panel's own values: shown as "approximation".
    Approximation,
    // Measured on a device, or read from its OTP.
    Measured,
}

// How the glass answers the waveform.
#[derive(Clone, Copy)]
pub struct Optics {
    pub provenance: Provenance,
    // The drive from black to white, in millivolt-nanoseconds.
    pub full_swing: u64,
    // A positive pixel voltage (source above VCOM) darkens the pixel.
    pub positive_drives_black: bool,
    // The grey of every pixel and of the border at power-on, 0 black to 255 white.
    pub initial_gray: u8,
}

impl Default for Optics {
    ghost is_default = { λ optics. optics ≡ default_optics };

    fn default() -> Optics {
        Optics {
            provenance: Provenance::Approximation,
            full_swing: 6_000_000_000_000,
            positive_drives_black: true,
            initial_gray: 255,
        }
    }
}

// What a published image comes from.
#[derive(Clone, Copy)]
pub enum RefreshKind {
    // The glass before any refresh (generation 0).
    PowerOn,
    // Display mode 1.
    Full,
    // Display mode 2.
    Partial,
}

// The header of the image published after a refresh; its pixels are a lent buffer.
#[derive(Clone, Copy)]
pub struct PanelImage {
    pub width: u16,
    pub height: u16,
    // The border (VBD), 0 black to 255 white.
    pub border: u8,
    // 0 at power-on, then one more for every refresh published.
    pub generation: u64,
    pub kind: RefreshKind,
    // A hardware reset cut the display short: the image is the state the glass had reached.
    pub interrupted: bool,
    // When the display began driving the glass (0 at power-on), in cycles of the time base.
    pub started: u64,
    // When the display ended or was cut.
    pub at: u64,
}

// `x ↦ min(max(x + add, lo), hi)`, with `lo ≤ hi`: what a run of phases does to an optical state.
#[derive(Clone, Copy)]
pub struct Transfer {
    pub add: i64,
    pub lo: i64,
    pub hi: i64,
}

impl Transfer {
    // Leaves every state from 0 to `swing` where it is.
    pub fn identity(swing: i64) -> Transfer
        ensures { result ≡ identity_t swing }
    {
        Transfer {
            add: 0,
            lo: 0,
            hi: swing,
        }
    }

    // `self`, then `next`: holding a held number keeps the form, since its bounds are held too.
    pub fn then(self, next: Transfer) -> Transfer
        ensures { result ≡ then_t self next }
    {
        let lo = numbers::saturating_add_i64(self.lo, next.add);
        let hi = numbers::saturating_add_i64(self.hi, next.add);
        Transfer {
            add: numbers::saturating_add_i64(self.add, next.add),
            lo: numbers::clamp_i64(lo, next.lo, next.hi),
            hi: numbers::clamp_i64(hi, next.lo, next.hi),
        }
    }

    // Moves every state by `delta`, stopping at 0 and `swing`.
    pub fn shift(delta: i64, swing: i64) -> Transfer
        ensures { result ≡ shift_t delta swing }
    {
        Transfer {
            add: delta,
            lo: 0,
            hi: swing,
        }
    }

    pub fn apply(self, state: i64) -> i64
        ensures { result ≡ apply_t self state }
    {
        let moved = numbers::saturating_add_i64(state, self.add);
        numbers::clamp_i64(moved, self.lo, self.hi)
    }
}

// swing × gray / 255 in 64 bits: 255 is divided out of the swing first.
fn share(gray: u64, swing: u64) -> u64
    requires { gray ≤ 255 }
    ensures { result ≡ swing * gray / 255 }
{
    let whole = swing / 255;
    let rest = swing % 255;
    whole * gray + rest * gray / 255
}

// The optical state of grey level `gray`.
pub fn level(gray: u8, swing: i64) -> i64
    requires { pos 1 ≤ℤ swing }
    ensures { result ≡ level_z gray swing }
{
    share(u64::from(gray), swing as u64) as i64
}

// 510 × state / swing for a large swing, with one division by a number that is not constant: the swing is 510 × step + rest, and
// state / step is the answer or one more.
fn half_steps(state: u64, swing: u64) -> u64
    requires { (state < swing) × (1048576 ≤ swing) × (swing < 9223372036854775808) }
    ensures { result ≡ 510 * state / swing }
{
    let step = swing / 510;
    let rest = swing % 510;
    let steps = state / step;
    let left = state % step;
    if steps * rest <= 510 * left {
        steps
    } else {
        steps - 1
    }
}

// (510 × state + swing) / (2 × swing), rounded down.
fn nearest(state: u64, swing: u64) -> u64
    requires { (state < swing) × (swing < 9223372036854775808) }
    ensures { result ≡ (510 * state + swing) / (2 * swing) }
{
    if swing < 1048576 {
        (510 * state + swing) / (2 * swing)
    } else {
        (half_steps(state, swing) + 1) / 2
    }
}

// The grey level of optical state `state`, rounded to the nearest (half up).
pub fn gray(state: i64, swing: i64) -> u8
    requires { pos 1 ≤ℤ swing }
    ensures { result ≡ gray_z state swing }
{
    if state <= 0 {
        return 0;
    }
    if swing <= state {
        return 255;
    }
    nearest(state as u64, swing as u64) as u8
}
