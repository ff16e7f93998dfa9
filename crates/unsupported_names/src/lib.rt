// The names of the commands that the model does not carry out (mod.rs, `kind`).
#![tactic(auto)]

ghost use Rattle.std.specs.Prelude.{◌≡◌, ◌≤◌, length};
ghost use Rattle.unsupported_names.specs.Names.{padded, name_of};

use diagnostic::Name;

// A text with zeros behind it.
fn name(text: &[u8]) -> Name
    requires { length text.now ≤ 44 }
    ensures { result ≡ padded text.now }
{
    let mut room = [0u8; 44];
    let length = byte_copy::copy(text, &mut room);
    Name {
        bytes: room,
        length,
    }
}

// The datasheet's name of a command that the model does not carry out; of another command nothing.
pub fn unsupported_name(command: u8) -> Name
    ensures { result ≡ name_of command }
{
    match command {
        0x08 => name(b"Initial Code Setting OTP Program"),
        0x09 => name(b"Write Register for Initial Code Setting"),
        0x0A => name(b"Read Register for Initial Code Setting"),
        0x1C => name(b"Write Command to External temperature sensor"),
        0x25 => name(b"Write RAM (Dithering)"),
        0x2A => name(b"Program VCOM OTP"),
        0x30 => name(b"Program WS OTP"),
        0x31 => name(b"Load WS OTP"),
        0x34 => name(b"CRC calculation"),
        0x35 => name(b"CRC Status Read"),
        0x36 => name(b"Program OTP selection"),
        0x39 => name(b"OTP program mode"),
        0x4D => name(b"Dithering engine Start/Stop"),
        _ => name(b""),
    }
}
