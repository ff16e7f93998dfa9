// The panel's picture as text, a character a pixel.
ghost use Rattle.std.specs.Prelude.{◌≤◌, length};

use crate::answers::Answers;
use glass::PanelImage;
use std::io;

// From black to white.
const SHADES: [u8; 10] = *b"@%#*+=-:. ";

// Pixels whose shades are gathered at most.
const SHADED: usize = 256;

fn shade(grey: u8) -> u8 {
    SHADES[grey as usize * 10 / 256]
}

fn head(answers: &mut Answers, image: PanelImage) {
    answers.word(b"picture");
    answers.field(u64::from(image.width));
    answers.field(u64::from(image.height));
    answers.end_line();
}

// The shades are gathered first: the text takes them at once.
fn part(answers: &mut Answers, pixels: &[u8])
    requires { length pixels.now ≤ 256 }
{
    let mut shades = [0u8; SHADED];
    for i in 0..pixels.len() {
        shades[i] = shade(pixels[i]);
    }
    answers.word(&shades[..pixels.len()]);
}

fn row(answers: &mut Answers, pixels: &[u8]) {
    for pixels in pixels.chunks(SHADED) {
        part(answers, pixels);
    }
    answers.word(b"|\n");
}

// A row of the panel a line; the text is written on the way.
pub fn put(
    rt: &(impl Print + Eprint),
    answers: &mut Answers,
    image: PanelImage,
    pixels: &[u8],
) -> io::Result<()> {
    head(answers, image);
    let width = (image.width as usize).max(1);
    for pixels in pixels.chunks(width) {
        answers.flush_when_long(rt)?;
        row(answers, pixels);
    }
    Ok(())
}
