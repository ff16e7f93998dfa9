// Reading a buffer full.
#![tactic(auto)]

ghost use Rattle.std.specs.Prelude.{◌≡◌, ◌<◌, true, false, ℕ, length, take, [], ◌∷◌, IfOk};
ghost use Rattle.std.specs.Io.{ReadsAtMost};
ghost use Rattle.std.specs.Io.KnownBytes.{Consumes, IsAtEnd};

use std::io;
use std::io::Read;

// Reads until the buffer is full or the input ends, and answers how many bytes were put at its front.
pub fn read_full<R: Read>(reader: &mut R, buf: &mut [u8]) -> io::Result<usize>
    ensures bound { ReadsAtMost result buf.new }
    ensures bytes { IfOk result (λ n. Consumes (R.remaining reader.old) (R.remaining reader.new) (take n buf.new)) }
    ensures end { IfOk result (λ n. n < length buf.new → IsAtEnd (R.remaining reader.new)) }
{
    let mut done: usize = 0;
    while done < buf.len() {
        let count = reader.read(&mut buf[done..])?;
        if count == 0 {
            break;
        }
        done += count;
    }
    Ok(done)
}

// Reading stops at the first read that gets nothing. Past the end another read gets nothing either and does not fail: one that fails or
// gets a byte tells that what was read is not the whole.
pub fn is_at_end<R: Read>(reader: &mut R) -> io::Result<bool>
    ensures end { IfOk result (λ ended. ended ≡ true → IsAtEnd (R.remaining reader.new) × Consumes (R.remaining reader.old) (R.remaining reader.new) []) }
    ensures more { IfOk result (λ ended. ended ≡ false → (byte : ℕ) × Consumes (R.remaining reader.old) (R.remaining reader.new) (byte ∷ [])) }
{
    let mut byte = [0u8; 1];
    let read = read_full(reader, &mut byte)?;
    Ok(read == 0)
}
