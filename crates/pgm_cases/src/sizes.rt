// For each width a line: in how many heights a header is written, in how many a header of these numbers is read, and the hash of those written.
ghost use Rattle.std.specs.Prelude.{◌≤◌};

use column::Columns;
use pgm::PgmError;
use std::io;

// Width and height go from 0 to this.
const MOST: u16 = 1000;

// The bytes of a header of numbers up to `MOST`.
const HEADER_ROOM: usize = 17;

// The bytes of the headers of a width: of those that are written none is longer than `pgm::HEADER_BYTES`.
const HEADERS_ROOM: usize = 15015;

fn digits(n: u16) -> usize {
    match n {
        0..=9 => 1,
        10..=99 => 2,
        100..=999 => 3,
        _ => 4,
    }
}

// The header of any two numbers in the form, whether or not they are a size in range.
fn header(width: u16, height: u16) -> Columns<HEADER_ROOM> {
    let mut header = Columns::new();
    header.put_text(b"P5\n");
    header.put_number(digits(width), u64::from(width));
    header.put(b' ');
    header.put_number(digits(height), u64::from(height));
    header.put_text(b"\n255\n");
    header
}

// A header alone has no pixels, so that 72 says that it is read.
fn is_read(width: u16, height: u16) -> u64
    ensures few { result ≤ 1 }
{
    let mut pixels = [0u8; 1];
    match pgm::read(header(width, height).text(), &mut pixels) {
        Err(PgmError::Count) => 1,
        _ => 0,
    }
}

// The header that is written behind those before it, if one is.
fn put_header(headers: &mut Columns<HEADERS_ROOM>, width: u16, height: u16) -> u64
    ensures few { result ≤ 1 }
{
    let mut header = [0u8; pgm::HEADER_BYTES];
    match pgm::write_header(width, height, &mut header) {
        Ok(length) => {
            headers.put_text(&header[..length]);
            1
        }
        Err(_) => 0,
    }
}

fn put_width(rt: &impl Print, width: u16) -> io::Result<()> {
    let mut headers = Columns::<HEADERS_ROOM>::new();
    let mut written: u64 = 0;
    let mut read: u64 = 0;
    for height in 0..=MOST {
        written += put_header(&mut headers, width, height);
        read += is_read(width, height);
    }
    let hash = hash::of_bytes(headers.text());
    println!(rt; "{written} {read} {hash}")
}

pub fn put_sizes(rt: &impl Print) -> io::Result<()> {
    for width in 0..=MOST {
        put_width(rt, width)?;
    }
    Ok(())
}
