// The tests of what the functions ask.
ghost use Rattle.std.specs.Prelude.{◌≡◌, ◌*◌};
ghost use Rattle.bench.specs.Asked.{lasting, grayable, walkable, combinable, countable, scannable, finishable};

// Every frame-rate code has a period.
fn last(periods: &[u64; 16]) -> bool
    ensures { result ≡ lasting periods.now }
{
    for code in 0..16 {
        if periods[code] == 0 {
            return false;
        }
    }
    true
}

pub(crate) fn can_gray(swing: i64, states: usize, pixels: usize) -> bool
    ensures { result ≡ grayable swing states pixels }
{
    (1 <= swing) & (pixels == states)
}

pub(crate) fn can_walk(periods: &[u64; 16], lut: usize) -> bool
    ensures { result ≡ walkable periods.now lut }
{
    last(periods) & (lut < 5)
}

pub(crate) fn can_combine(periods: &[u64; 16], lut: usize, swing: i64) -> bool
    ensures { result ≡ combinable periods.now lut swing }
{
    can_walk(periods, lut) & (1 <= swing)
}

fn can_count(states: usize, counts: usize) -> bool
    ensures { result ≡ countable states counts }
{
    (counts == 256) & (states < 4294967296)
}

pub(crate) fn can_finish(
    periods: &[u64; 16],
    swing: i64,
    states: usize,
    luts: usize,
    pixels: usize,
    counts: usize,
) -> bool
    ensures { result ≡ finishable periods.now swing states luts pixels counts }
{
    last(periods) & can_gray(swing, states, pixels) & (luts == states) & can_count(states, counts)
}

// The pixels of a glass.
fn area(width: u16, height: u16) -> usize
    ensures { result ≡ height * width }
{
    height as usize * width as usize
}

pub(crate) fn can_scan(
    luts: usize,
    gates: usize,
    red: usize,
    black_white: usize,
    width: u16,
    height: u16,
    first_source: u16,
) -> bool
    ensures { result ≡ scannable luts gates red black_white width height first_source }
{
    let pixels = area(width, height);
    let rows = height as usize;
    let sources = first_source as usize + width as usize;
    let glass = (luts == pixels) & (gates == rows);
    let planes = (red == ram::PLANE_BYTES) & (black_white == ram::PLANE_BYTES);
    glass & planes & (sources <= 960)
}
