// Pictures as Netpbm's binary PGM (#109): written into a lent buffer, and read back. Nothing but the form written is read.
#![tactic(auto)]

pub mod form;
mod header;

ghost use Rattle.std.specs.Prelude.{◌≡◌, ◌≤◌, length, IfOk};
ghost use Rattle.pgm.specs.Files.{pgm_number, answered, header_written, file_written, file_read};

use form::Size;

// Bytes of the longest header.
pub const HEADER_BYTES: usize = 15;

// Why a picture was not written or read.
#[derive(Clone, Copy)]
pub enum PgmError {
    // 71: the header read has not the form, or the size is outside the range.
    Form,
    // 72: the grey bytes are not width × height.
    Count,
    // 73: the lent buffer is too short.
    Room,
}

// The request's number.
impl From<PgmError> for u8 {
    ghost from_gives = { λ error made. made ≡ pgm_number error };

    fn from(error: PgmError) -> u8 {
        match error {
            PgmError::Form => 71,
            PgmError::Count => 72,
            PgmError::Room => 73,
        }
    }
}

// The header alone, for a program that writes the pixels from where they lie; answers its length.
pub fn write_header(width: u16, height: u16, out: &mut [u8]) -> Result<usize, PgmError>
    ensures header { answered result out.new ≡ header_written width height out.old }
    ensures within { IfOk result (λ bytes. bytes ≤ length out.new) }
{
    let fine = header::in_range(width, height);
    if !fine {
        return Err(PgmError::Form);
    }
    let length = header::byte_count(width, height);
    if out.len() < length {
        return Err(PgmError::Room);
    }
    header::put(out, width, height);
    Ok(length)
}

// The file of a picture, to the front of `out`; the pixels are those of its rows, from the top, a grey byte each. Answers its length.
pub fn write(width: u16, height: u16, pixels: &[u8], out: &mut [u8]) -> Result<usize, PgmError>
    ensures file { answered result out.new ≡ file_written width height pixels.now out.old }
    ensures within { IfOk result (λ bytes. bytes ≤ length out.new) }
{
    let fine = header::in_range(width, height);
    if !fine {
        return Err(PgmError::Form);
    }
    let count = width as usize * height as usize;
    if pixels.len() != count {
        return Err(PgmError::Count);
    }
    let start = header::byte_count(width, height);
    let length = start + count;
    if out.len() < length {
        return Err(PgmError::Room);
    }
    header::put(out, width, height);
    byte_copy::copy(pixels, &mut out[start..]);
    Ok(length)
}

// The size of a file's picture, its pixels to the front of `out`.
pub fn read(file: &[u8], out: &mut [u8]) -> Result<Size, PgmError>
    ensures { answered result out.new ≡ file_read file.now out.old }
{
    let size = form::size_in(file);
    let width = size.width;
    let height = size.height;
    let fine = form::is_header(file, width, height);
    if !fine {
        return Err(PgmError::Form);
    }
    let start = header::byte_count(width, height);
    let found = file.len() - start;
    let count = width as usize * height as usize;
    if found != count {
        return Err(PgmError::Count);
    }
    if out.len() < count {
        return Err(PgmError::Room);
    }
    byte_copy::copy(&file[start..], out);
    Ok(size)
}
