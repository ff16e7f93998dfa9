// What reading and writing answer of files near a written one, and of every size from 0 to 1,000, by its header alone (#109), to be held
// to an independent reckoning.
#![tactic(auto)]

mod near;
mod sizes;

use std::io;

fn main(rt: HostRuntime) -> io::Result<()> {
    let mut file = [0u8; 17];
    let _ = pgm::write(3, 2, b"\x00\x33\x66\x99\xcc\xff", &mut file);
    near::put_near(&rt, &mut file)?;
    near::put_rooms(&rt, &file)?;
    let mut header = [0u8; pgm::HEADER_BYTES];
    let _ = pgm::write_header(960, 680, &mut header);
    near::put_near(&rt, &mut header)?;
    near::put_writes(&rt, 0, b"\x00\x33\x66\x99\xcc")?;
    near::put_writes(&rt, 3, b"\x00\x33\x66\x99\xcc")?;
    near::put_writes(&rt, 3, b"\x00\x33\x66\x99\xcc\xff")?;
    near::put_writes(&rt, 3, b"\x00\x33\x66\x99\xcc\xff\x00")?;
    sizes::put_sizes(&rt)
}
