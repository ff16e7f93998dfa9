// What is said where there are no lines: a refusal's number in three columns on standard output, or `  -` where there is no number, and
// on standard error what is wrong in words.
use column::Columns;
use config::ConfigError;
use otp::ENTRY_BYTES;
use std::io;

pub fn words(rt: &impl Eprint, text: &str) -> io::Result<()> {
    rt.eprint(text)
}

pub fn refusal(rt: &impl Print, number: u64) -> io::Result<()> {
    let mut line = Columns::<4>::new();
    line.put_number(3, number);
    line.put(b'\n');
    rt.write_all(line.text())
}

fn no_number(rt: &impl Print) -> io::Result<()> {
    println!(rt; "  -")
}

pub fn failure(rt: &(impl Print + Eprint), text: &str) -> io::Result<()> {
    no_number(rt)?;
    words(rt, text)
}

fn number_words(rt: &impl Eprint, before: &str, number: usize, after: &str) -> io::Result<()> {
    eprint!(rt; "{before}{number}{after}")
}

// The argument for a frame-rate code.
pub fn bad_period(rt: &(impl Print + Eprint), code: usize) -> io::Result<()> {
    no_number(rt)?;
    number_words(
        rt,
        "charge: the argument for frame-rate code ",
        code,
        " is no number: up to 20 bytes, blanks or none, then a decimal below 2^64, no leading 0\n",
    )
}

// The first entry that 12 refuses; each is a table by itself.
fn first_bad(table: &[u8]) -> usize {
    table
        .chunks_exact(ENTRY_BYTES)
        .position(|entry| otp::is_bad_table(entry))
        .unwrap_or(table.len() / ENTRY_BYTES)
}

fn bad_table(rt: &(impl Print + Eprint), table: &[u8]) -> io::Result<()> {
    refusal(rt, 12)?;
    if table.len() % ENTRY_BYTES != 0 {
        return words(
            rt,
            "charge: standard input is not up to 64 whole entries of 118 bytes\n",
        );
    }
    let entry = first_bad(table);
    number_words(
        rt,
        "charge: in entry ",
        entry,
        " of the table the mode or the provenance is above 1, or a bound above 4,095\n",
    )
}

// 5 or 12.
pub fn refused(rt: &(impl Print + Eprint), error: ConfigError, table: &[u8]) -> io::Result<()> {
    match error {
        ConfigError::ZeroFramePeriod(code) => {
            refusal(rt, 5)?;
            number_words(
                rt,
                "charge: the period of frame-rate code ",
                code,
                " is 0\n",
            )
        }
        _ => bad_table(rt, table),
    }
}

// The first code whose period 81 refuses; the last where none before it is.
fn first_long(frame_period: [u64; 16]) -> usize {
    frame_period
        .iter()
        .position(|ns| charges::LONGEST_PERIOD < *ns)
        .unwrap_or(15)
}

pub fn long_period(rt: &(impl Print + Eprint), frame_period: [u64; 16]) -> io::Result<()> {
    refusal(rt, 81)?;
    let code = first_long(frame_period);
    number_words(
        rt,
        "charge: the period of frame-rate code ",
        code,
        " is above 100,000,000 ns\n",
    )
}
