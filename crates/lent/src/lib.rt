// The counter's step on a counter that the caller lends, as the Rust has it (ram.rs, `Counter::advance`).
#![tactic(auto)]

ghost use Rattle.std.specs.Prelude.{◌≡◌};
ghost use Rattle.counter.specs.Counter.{advanced_of};

use counter::{Counter, Entry, Window};

// Where the counter goes after a byte of data, whatever the counter, window and mode.
pub fn advance(counter: &mut Counter, window: Window, entry: Entry)
    ensures { counter.new ≡ advanced_of counter.old window entry }
{
    *counter = Counter::advanced(*counter, window, entry);
}
