// Answers the questions of oracle/README.md with the proved functions: a question a line on standard input, an answer a line on
// standard output. It knows a bad question by its name and the count of its numbers, and takes their sizes more freely than the oracle.
#![tactic(auto)]

mod answer;
mod answers;
mod commands;
mod configuration;
mod planes;
mod question;
mod reader;
mod refreshes;
mod registers;
mod tables;
mod temperature;
mod transfers;
mod waves;
mod wiring;

use answers::Answers;
use full_read::read_full;
use reader::Reader;
use std::io;
use std::io::Read;

// What is read at once.
const CHUNK: usize = 65536;

// Answers what is read at once, and says how many bytes that was.
fn chunk(
    rt: &(impl Print + Eprint),
    input: &mut impl Read,
    reader: &mut Reader,
    answers: &mut Answers,
) -> io::Result<usize> {
    let mut bytes = [0u8; CHUNK];
    let count = read_full(input, &mut bytes)?;
    for byte in &bytes[..count] {
        reader.read(rt, *byte, answers)?;
    }
    Ok(count)
}

// A proved loop has to end, and nothing says that the input does: the turns have a bound that no run reaches.
fn all(
    rt: &(impl Print + Eprint),
    input: &mut impl Read,
    reader: &mut Reader,
    answers: &mut Answers,
) -> io::Result<()> {
    for _ in 0..u64::MAX {
        if chunk(rt, input, reader, answers)? == 0 {
            break;
        }
    }
    answers.flush(rt)
}

fn main(rt: HostRuntime) -> io::Result<()> {
    all(
        &rt,
        &mut rt.stdin(),
        &mut Reader::new(),
        &mut Answers::new(),
    )
}
