// The function of crates/bench_device as a Rust or a C program links it.
#![tactic(auto)]

ghost use Rattle.std.specs.Prelude.{◌≡◌};
ghost use Rattle.counts.specs.Counts.{picture};
ghost use Rattle.power_on.specs.Start.{buffers, started};
ghost use Rattle.traffic.specs.Traffic.{event_at, shortest};
ghost use Rattle.bench_device.specs.Whole.{config_of, ran, ran_from};

// A device started and fed with events; how many of them were made. The header is that of the image it then shows. After a refused start
// none is made.
#[unsafe(no_mangle)]
pub extern "C" fn proved_traffic(
    states: &mut [i64],
    luts: &mut [u8],
    pixels: &mut [u8],
    counts: &mut [u32],
    black_white: &mut [u8],
    red: &mut [u8],
    gates: &mut [u16],
    log: &mut [u8],
    otp: &[u8],
    width: u16,
    height: u16,
    kinds: &[u8],
    times: &[u64],
    values: &[u8],
    header: &mut [u64; 8],
) -> usize
    ensures { ran result header.new (buffers states.new luts.new (picture pixels.new counts.new) black_white.new red.new gates.new log.new) ≡ ran_from otp.now (event_at kinds.now times.now values.now) (shortest kinds.now times.now values.now) (started (config_of width height) otp.now (buffers states.old luts.old (picture pixels.old counts.old) black_white.old red.old gates.old log.old)).left }
{
    bench_device::proved_traffic(
        states,
        luts,
        pixels,
        counts,
        black_white,
        red,
        gates,
        log,
        otp,
        width,
        height,
        kinds,
        times,
        values,
        header,
    )
}
