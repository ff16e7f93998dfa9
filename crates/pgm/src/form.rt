// The form of a PGM file: the numbers that stand where a header has them, and whether the file starts with their header.
// The numbers are only guessed here; that the header written for them stands there byte by byte is what decides.
ghost use Rattle.std.specs.Prelude.{◌≡◌, ◌+◌, ◌*◌, ◌≤◌, get_or};
ghost use Rattle.pgm.specs.Form.{with_digit, number_at, size_in, starts_with, is_header_of};

use crate::header;

// A number, and the place behind it.
#[derive(Clone, Copy)]
pub struct Number {
    pub value: u16,
    pub end: usize,
}

// A picture's width and height.
#[derive(Clone, Copy)]
pub struct Size {
    pub width: u16,
    pub height: u16,
}

// 0 past the end, which is no digit.
fn byte_at(file: &[u8], at: usize) -> u8
    ensures { result ≡ get_or file.now at 0 }
{
    if at < file.len() {
        return file[at];
    }
    0
}

// The number with the digit behind it, if one stands there.
fn with_digit(file: &[u8], number: Number) -> Number
    requires small { number.value ≤ 99 }
    ensures digit { result ≡ with_digit file.now number }
    ensures small { result.value ≤ 10 * number.value + 9 }
    ensures near { result.end ≤ number.end + 1 }
{
    let at = number.end;
    let byte = byte_at(file, at);
    if (b'0' <= byte) & (byte <= b'9') {
        let digit = u16::from(byte - b'0');
        return Number {
            value: 10 * number.value + digit,
            end: at + 1,
        };
    }
    number
}

// Of at most three digits.
fn number_at(file: &[u8], at: usize) -> Number
    ensures number { result ≡ number_at file.now at }
    ensures near { result.end ≤ at + 3 }
{
    let none = Number { value: 0, end: at };
    let one = with_digit(file, none);
    let two = with_digit(file, one);
    with_digit(file, two)
}

// Behind `P5` and LF the width, and behind the byte after it the height.
pub(crate) fn size_in(file: &[u8]) -> Size
    ensures { result ≡ size_in file.now }
{
    let width = number_at(file, 3);
    let height = number_at(file, width.end + 1);
    Size {
        width: width.value,
        height: height.value,
    }
}

fn starts_with(file: &[u8], front: &[u8]) -> bool
    ensures { result ≡ starts_with front.now file.now }
{
    file.starts_with(front)
}

// Whether the file starts with the header of a size in range.
pub(crate) fn is_header(file: &[u8], width: u16, height: u16) -> bool
    ensures { result ≡ is_header_of width height file.now }
{
    let fine = header::in_range(width, height);
    if !fine {
        return false;
    }
    starts_with(file, header::text_of(width, height).text())
}
