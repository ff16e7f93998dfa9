// A digit for each answer: 0 where a picture is read, and 1, 2 and 3 for 71, 72 and 73. For each place of a file a line of the 256 files
// that may differ there, then a line of its fronts, from none to the whole; and for buffers from none to one that is too long a line each
// of all that a call answers and leaves.
ghost use Rattle.std.specs.Prelude.{◌<◌, ◌≤◌, length};

use pgm::PgmError;
use std::io;

fn digit(error: PgmError) -> u8 {
    match error {
        PgmError::Form => b'1',
        PgmError::Count => b'2',
        PgmError::Room => b'3',
    }
}

// Read into a buffer with room for six pixels and one more.
fn answer(file: &[u8]) -> u8 {
    let mut pixels = [0u8; 7];
    match pgm::read(file, &mut pixels) {
        Ok(_) => b'0',
        Err(error) => digit(error),
    }
}

fn put_changed(rt: &impl Print, file: &mut [u8], place: usize) -> io::Result<()>
    requires { place < length file.old }
{
    let mut line = [b'\n'; 257];
    let kept = file[place];
    for value in 0..256 {
        file[place] = value as u8;
        line[value] = answer(file);
    }
    file[place] = kept;
    rt.write_all(&line)
}

fn put_fronts(rt: &impl Print, file: &[u8]) -> io::Result<()> {
    for end in 0..=file.len() {
        let one = [answer(&file[..end])];
        rt.write_all(&one)?;
    }
    rt.write_all(b"\n")
}

pub fn put_near(rt: &impl Print, file: &mut [u8]) -> io::Result<()> {
    for place in 0..file.len() {
        put_changed(rt, file, place)?;
    }
    put_fronts(rt, file)
}

// Three numbers and the hash of a buffer, a line.
fn put_line(rt: &impl Print, first: u64, second: u64, third: u64, buffer: &[u8]) -> io::Result<()> {
    let hash = hash::of_bytes(buffer);
    println!(rt; "{first} {second} {third} {hash}")
}

// Read into the front of a buffer: the number, the size, and the hash of the whole buffer.
fn put_read(rt: &impl Print, file: &[u8], buffer: &mut [u8], room: usize) -> io::Result<()>
    requires { room ≤ length buffer.old }
{
    let (number, width, height) = match pgm::read(file, &mut buffer[..room]) {
        Ok(size) => (0, size.width, size.height),
        Err(error) => (u8::from(error), 0, 0),
    };
    put_line(
        rt,
        u64::from(number),
        u64::from(width),
        u64::from(height),
        buffer,
    )
}

// Buffers of 0 to 7 bytes for a picture of six.
pub fn put_rooms(rt: &impl Print, file: &[u8]) -> io::Result<()> {
    for room in 0..=7 {
        let mut pixels = [0x55u8; 9];
        put_read(rt, file, &mut pixels, room)?;
    }
    Ok(())
}

// The number of a refusal, 0 for none, and the length.
fn told(written: Result<usize, PgmError>) -> (u64, u64) {
    match written {
        Ok(length) => (0, length as u64),
        Err(error) => (u64::from(u8::from(error)), 0),
    }
}

// Two rows of so many pixels written into the front of a buffer: the number, the length, and the hash of the whole buffer.
fn put_write(
    rt: &impl Print,
    width: u16,
    pixels: &[u8],
    buffer: &mut [u8],
    room: usize,
) -> io::Result<()>
    requires { room ≤ length buffer.old }
{
    let (number, length) = told(pgm::write(width, 2, pixels, &mut buffer[..room]));
    put_line(rt, number, 0, length, buffer)
}

// Their header alone.
fn put_header(rt: &impl Print, width: u16, buffer: &mut [u8], room: usize) -> io::Result<()>
    requires { room ≤ length buffer.old }
{
    let (number, length) = told(pgm::write_header(width, 2, &mut buffer[..room]));
    put_line(rt, number, 1, length, buffer)
}

// Buffers of 0 to 18 bytes for a file of 17.
pub fn put_writes(rt: &impl Print, width: u16, pixels: &[u8]) -> io::Result<()> {
    for room in 0..=18 {
        let mut file = [0x55u8; 20];
        put_write(rt, width, pixels, &mut file, room)?;
        let mut header = [0x55u8; 20];
        put_header(rt, width, &mut header, room)?;
    }
    Ok(())
}
