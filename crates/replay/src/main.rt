// Replays runs of the whole device: lines of docs/replay-format.md on standard input, its answers on standard output.
#![tactic(auto)]

mod answers;
mod buffers;
mod current;
mod dump;
mod fields;
mod handed;
mod picture;
mod register_lines;
mod run;
mod setup;

use buffers::Buffers;
use full_read::read_full;
use run::Run;
use std::io;
use std::io::Read;

// What is read at once: whole lines.
const CHUNK: usize = 65529;

// Takes what is read at once, and says how many bytes that was. A line a turn; the last may be shorter, and is then a bad one.
fn chunk(rt: &(impl Print + Eprint), input: &mut impl Read, run: &mut Run) -> io::Result<usize> {
    let mut bytes = [0u8; CHUNK];
    let count = read_full(input, &mut bytes)?;
    for line in bytes[..count].chunks(line::LINE_BYTES) {
        run.take(rt, line)?;
    }
    Ok(count)
}

// A proved loop has to end, and nothing says that the input does: the turns have a bound that no run reaches.
fn all(rt: &(impl Print + Eprint), input: &mut impl Read, run: &mut Run) -> io::Result<()> {
    for _ in 0..u64::MAX {
        if chunk(rt, input, run)? < CHUNK {
            break;
        }
    }
    run.flush(rt)
}

fn main(rt: HostRuntime) -> io::Result<()> {
    let mut states = [0i64; buffers::PIXELS];
    let mut luts = [0u8; buffers::PIXELS];
    let mut pixels = [0u8; buffers::PIXELS];
    let mut counts = [0u32; buffers::COUNTS];
    let mut black_white = [0u8; buffers::PLANE];
    let mut red = [0u8; buffers::PLANE];
    let mut gates = [0u16; buffers::ROWS];
    let mut log = [0u8; buffers::LOG];
    let mut run = Run::new(Buffers {
        states: states.as_mut_slice(),
        luts: luts.as_mut_slice(),
        pixels: pixels.as_mut_slice(),
        counts: counts.as_mut_slice(),
        black_white: black_white.as_mut_slice(),
        red: red.as_mut_slice(),
        gates: gates.as_mut_slice(),
        log: log.as_mut_slice(),
    });
    all(&rt, &mut rt.stdin(), &mut run)
}
