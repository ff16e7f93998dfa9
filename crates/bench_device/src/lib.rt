// The whole proved device as a Rust or a C program calls it, to be timed beside the reference.
#![tactic(auto)]

mod whole;

ghost use Rattle.std.specs.Prelude.{◌≡◌};
ghost use Rattle.counts.specs.Counts.{picture};
ghost use Rattle.power_on.specs.Start.{buffers, chip_in, started};
ghost use Rattle.traffic.specs.Traffic.{event_at, shortest};
ghost use Rattle.bench_device.specs.Whole.{config_of, ran, ran_from};

use bench::made;
use device::Ssd1677;
use power_on::RefusedStart;

// The chip that a start hands back, accepted or refused.
fn handed_back(started: Result<Ssd1677, RefusedStart>) -> Ssd1677
    ensures { result ≡ chip_in started }
{
    match started {
        Ok(state) => state,
        Err(refused) => refused.state,
    }
}

// A device started and fed with events; how many of them were made. The header is that of the image it then shows. After a refused start
// none is made.
pub fn proved_traffic(
    states: &mut [i64],
    luts: &mut [u8],
    pixels: &mut [u8],
    counts: &mut [u32],
    black_white: &mut [u8],
    red: &mut [u8],
    gates: &mut [u16],
    log: &mut [u8],
    otp: &[u8],
    width: u16,
    height: u16,
    kinds: &[u8],
    times: &[u64],
    values: &[u8],
    header: &mut [u64; 8],
) -> usize
    ensures { ran result header.new (buffers states.new luts.new (picture pixels.new counts.new) black_white.new red.new gates.new log.new) ≡ ran_from otp.now (event_at kinds.now times.now values.now) (shortest kinds.now times.now values.now) (started (config_of width height) otp.now (buffers states.old luts.old (picture pixels.old counts.old) black_white.old red.old gates.old log.old)).left }
{
    let started = power_on::new(
        whole::config_of(width, height),
        &mut states[..],
        &mut luts[..],
        &mut pixels[..],
        &mut counts[..],
        &mut black_white[..],
        &mut red[..],
        &mut gates[..],
        &mut log[..],
        otp,
    );
    let present = handed_back(started);
    let fed = traffic::feed(
        present,
        &mut states[..],
        &mut luts[..],
        &mut pixels[..],
        &mut counts[..],
        &mut black_white[..],
        &mut red[..],
        &gates[..],
        &mut log[..],
        otp,
        kinds,
        times,
        values,
    );
    let state = fed.state;
    let image = state.panel.image;
    *header = made::header_of(image);
    fed.made
}
