// The listings of the settings that stand one after the other on standard input.
#![tactic(auto)]

use full_read::read_full;
use std::io;
use std::io::Read;

// Lists the next setting, or what is left where that is shorter; answers whether to go on.
fn list_next(rt: &impl Print, settings: &mut impl Read) -> io::Result<bool> {
    let mut input = [0u8; listing::SETTING_BYTES];
    let read = read_full(settings, &mut input)?;
    if read == 0 {
        return Ok(false);
    }
    let mut text = [0u8; listing::ROOM];
    let length = listing::list(&input[..read], &mut text);
    rt.write_all(&text[..length])?;
    Ok(true)
}

// Nothing says that the input ends, so the turns have a bound that no run reaches.
fn list_all(rt: &impl Print, settings: &mut impl Read) -> io::Result<()> {
    for _ in 0..u64::MAX {
        if !list_next(rt, settings)? {
            break;
        }
    }
    Ok(())
}

fn main(rt: HostRuntime) -> io::Result<()> {
    list_all(&rt, &mut rt.stdin())
}
