// The listing of the setting on standard input (SCOPE, Listing).
#![tactic(auto)]

use full_read::read_full;
use std::io;

fn main(rt: HostRuntime) -> io::Result<()> {
    // One byte more than a setting has, so that longer input is seen to be longer.
    let mut input = [0u8; listing::SETTING_BYTES + 1];
    let read = read_full(&mut rt.stdin(), &mut input)?;
    let mut text = [0u8; listing::ROOM];
    let length = listing::list(&input[..read], &mut text);
    rt.write_all(&text[..length])
}
