// What the model does with a command byte (mod.rs; datasheet Table 7-1).
#![tactic(auto)]

ghost use Rattle.std.specs.Prelude.{◌≡◌};
ghost use Rattle.command.specs.Table.{kind_of, is_read};

use device::{Kind, Params};

pub fn kind(command: u8) -> Option<Kind>
    ensures { result ≡ kind_of command }
{
    match command {
        0x01 => Some(Kind::Write(Params::Exactly(3))),
        0x03 => Some(Kind::Write(Params::Exactly(1))),
        0x04 => Some(Kind::Write(Params::Exactly(3))),
        0x08 => Some(Kind::Unsupported),
        0x09 => Some(Kind::Unsupported),
        0x0A => Some(Kind::Unsupported),
        0x0C => Some(Kind::Write(Params::Exactly(5))),
        0x10 => Some(Kind::Write(Params::Exactly(1))),
        0x11 => Some(Kind::Write(Params::Exactly(1))),
        0x12 => Some(Kind::Write(Params::Exactly(0))),
        0x14 => Some(Kind::Write(Params::Exactly(1))),
        0x15 => Some(Kind::Write(Params::Exactly(1))),
        0x18 => Some(Kind::Write(Params::Exactly(1))),
        0x1A => Some(Kind::Write(Params::Between(1, 2))),
        0x1B => Some(Kind::Read),
        0x1C => Some(Kind::Unsupported),
        0x20 => Some(Kind::Write(Params::Exactly(0))),
        0x21 => Some(Kind::Write(Params::Between(1, 2))),
        0x22 => Some(Kind::Write(Params::Exactly(1))),
        0x24 => Some(Kind::Write(Params::Stream)),
        0x25 => Some(Kind::Unsupported),
        0x26 => Some(Kind::Write(Params::Stream)),
        0x27 => Some(Kind::Read),
        0x28 => Some(Kind::Write(Params::Exactly(0))),
        0x29 => Some(Kind::Write(Params::Exactly(1))),
        0x2A => Some(Kind::Unsupported),
        0x2B => Some(Kind::Write(Params::Exactly(2))),
        0x2C => Some(Kind::Write(Params::Exactly(1))),
        0x2D => Some(Kind::Read),
        0x2E => Some(Kind::Read),
        0x2F => Some(Kind::Read),
        0x30 => Some(Kind::Unsupported),
        0x31 => Some(Kind::Unsupported),
        0x32 => Some(Kind::Write(Params::Exactly(105))),
        0x34 => Some(Kind::Unsupported),
        0x35 => Some(Kind::Unsupported),
        0x36 => Some(Kind::Unsupported),
        0x37 => Some(Kind::Write(Params::Exactly(10))),
        0x38 => Some(Kind::Write(Params::Exactly(10))),
        0x39 => Some(Kind::Unsupported),
        0x3A => Some(Kind::Reserved),
        0x3B => Some(Kind::Reserved),
        0x3C => Some(Kind::Write(Params::Exactly(1))),
        0x41 => Some(Kind::Write(Params::Exactly(1))),
        0x44 => Some(Kind::Write(Params::Exactly(4))),
        0x45 => Some(Kind::Write(Params::Exactly(4))),
        0x46 => Some(Kind::Write(Params::Exactly(1))),
        0x47 => Some(Kind::Write(Params::Exactly(1))),
        0x4D => Some(Kind::Unsupported),
        0x4E => Some(Kind::Write(Params::Exactly(2))),
        0x4F => Some(Kind::Write(Params::Exactly(2))),
        0x7F => Some(Kind::Write(Params::Exactly(0))),
        _ => None,
    }
}

// Whether a command reads from the chip: after it, with D/C# high, the chip drives the data line.
pub fn is_read_command(command: u8) -> bool
    ensures { result ≡ is_read (kind_of command) }
{
    let Some(k) = kind(command) else {
        return false;
    };
    match k {
        Kind::Write(_) => false,
        Kind::Read => true,
        Kind::Unsupported => false,
        Kind::Reserved => false,
    }
}
