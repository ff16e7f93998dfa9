// A run of data bytes into a plane, as write_data has them one by one: each is written, then the counter moves on.
ghost use Rattle.std.specs.Prelude.{◌≡◌, length};
ghost use Rattle.bench.specs.Runs.{run, ran_over};

use ram::{Counter, Entry, Window};

pub(crate) fn write_all(
    plane: &mut [u8],
    bytes: &[u8],
    counter: Counter,
    window: Window,
    entry: Entry,
) -> Counter
    ensures { run result plane.new ≡ ran_over window entry bytes.now (length bytes.now) (run counter plane.old) }
{
    let mut at = counter;
    for i in 0..bytes.len() {
        ram::write(&mut plane[..], at, bytes[i]);
        at = at.advanced(window, entry);
    }
    at
}
