// What went wrong, in words, on standard error.
use crate::arguments;
use glass::Optics;
use std::io;

fn words(rt: &impl Eprint, text: &str) -> io::Result<()> {
    rt.eprint(text)
}

fn number(rt: &impl Eprint, n: u64) -> io::Result<()> {
    rt.eprint(n)
}

pub fn usage(rt: &impl Eprint) -> io::Result<()> {
    let optics = Optics::default();
    let periods = arguments::default_periods();
    words(
        rt,
        "usage: sensitivity VOLTAGE BEFORE AFTER [SWING [PERIOD | sixteen PERIODs]] <SETTING\n",
    )?;
    words(rt, "VOLTAGE  vsh1, vsh2 or vsl\n")?;
    words(
        rt,
        "BEFORE   its code before the change, and AFTER after it: 0x and two hexadecimal digits\n",
    )?;
    words(
        rt,
        "SWING    the drive from black to white, in millivolt-nanoseconds; if not given ",
    )?;
    number(rt, optics.full_swing)?;
    words(
        rt,
        "\nPERIOD   the frame period in nanoseconds, of all frame-rate codes or of each; if not given ",
    )?;
    number(rt, periods[0])?;
    words(rt, "\nSETTING  112 bytes\n")?;
    words(
        rt,
        "Writes a line for each LUT: its number, how far its states may shift in millivolt-nanoseconds,\n",
    )?;
    words(rt, "and the same in steps of grey, rounded up.\n")
}

// More bytes after a read that gave none.
pub fn not_whole(rt: &impl Eprint) -> io::Result<()> {
    words(
        rt,
        "sensitivity: standard input: not read whole, it goes on after a read that failed or gave nothing\n",
    )
}

// What could not be read or written, and why.
pub fn failed(rt: &impl Eprint, what: &str, error: io::Error) -> io::Result<()> {
    eprintln!(rt; "sensitivity: {what}: {error}")
}

// A bad argument: what it should be.
pub fn voltage(rt: &impl Eprint, place: usize) -> io::Result<()> {
    bad(rt, place, "a voltage: give vsh1, vsh2 or vsl\n")
}

pub fn code(rt: &impl Eprint, place: usize) -> io::Result<()> {
    bad(rt, place, "a code: give 0x and two hexadecimal digits\n")
}

pub fn decimal(rt: &impl Eprint, place: usize) -> io::Result<()> {
    bad(
        rt,
        place,
        "a decimal number below 2^64 without leading zeros (blanks in front are taken, 20 bytes in all)\n",
    )
}

fn bad(rt: &impl Eprint, place: usize, what: &str) -> io::Result<()> {
    words(rt, "sensitivity: argument ")?;
    number(rt, place as u64)?;
    words(rt, " is not ")?;
    words(rt, what)
}
