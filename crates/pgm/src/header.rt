// The header of a PGM file, written at the front of a lent buffer.
ghost use Rattle.std.specs.Prelude.{◌≡◌, ◌≤◌, length};
ghost use Rattle.column.specs.Columns.{gathered};
ghost use Rattle.pgm.specs.Form.{in_range, digit_count, decimal, pgm_header, header_bytes};
ghost use Rattle.pgm.specs.Files.{over_front};

use crate::HEADER_BYTES;
use column::Columns;

pub(crate) fn in_range(width: u16, height: u16) -> bool
    ensures { result ≡ in_range width height }
{
    ((1 <= width) & (width <= 960)) & ((1 <= height) & (height <= 680))
}

fn digit_count(n: u16) -> usize
    ensures count { result ≡ digit_count n }
    ensures few { (1 ≤ result) × (result ≤ 3) }
{
    if 100 <= n {
        return 3;
    }
    if 10 <= n {
        return 2;
    }
    1
}

// The bytes of a header: 9, and the digits of its numbers.
pub(crate) fn byte_count(width: u16, height: u16) -> usize
    ensures count { result ≡ length (pgm_header width height) }
    ensures few { result ≤ 15 }
{
    9 + digit_count(width) + digit_count(height)
}

type Header = Columns<HEADER_BYTES>;

fn put_decimal(header: &mut Header, n: u16)
    ensures { header.new ≡ gathered header_bytes header.old (decimal n) }
{
    header.put_number(digit_count(n), u64::from(n));
}

pub(crate) fn text_of(width: u16, height: u16) -> Header
    ensures { result ≡ pgm_header width height }
{
    let mut header = Header::new();
    header.put_text(b"P5\n");
    put_decimal(&mut header, width);
    header.put(b' ');
    put_decimal(&mut header, height);
    header.put_text(b"\n255\n");
    header
}

pub(crate) fn put(out: &mut [u8], width: u16, height: u16)
    requires room { length (pgm_header width height) ≤ length out.old }
    ensures { out.new ≡ over_front (pgm_header width height) out.old }
{
    byte_copy::copy(text_of(width, height).text(), out);
}
