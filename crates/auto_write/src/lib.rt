// The auto write of 0x46 and 0x47 (datasheet Table 7-1): bit 7 of its parameter is the value of the first step, bits 6:4 the step
// height, bits 2:0 the step width; the steps alternate in a checkerboard.
#![tactic(auto)]

ghost use Rattle.std.specs.Prelude.{◌≡◌, ◌/◌, ◌<◌};
ghost use Rattle.auto_write.specs.Auto.{height_of, width_of, step_byte, auto_written};

use ram::ROW_BYTES;

const HEIGHTS: [usize; 8] = [8, 16, 32, 64, 128, 256, 512, 680];

// The height of a step, in rows.
fn step_height(parameter: u8) -> usize
    ensures { result ≡ height_of parameter }
{
    HEIGHTS[((parameter >> 4) & 0b111) as usize]
}

// The steps before a column. The widths in bytes are powers of two but for the last, the whole row, and a column shifted by 7
// is 0 as well.
fn steps_before(parameter: u8, column: usize) -> usize
    requires { column < 120 }
    ensures { result ≡ column / width_of parameter }
{
    column >> (parameter & 0b111)
}

// The byte of a step: the first, and every other after it, takes the first value.
fn step_byte(first: bool, steps: usize) -> u8
    ensures { result ≡ step_byte first steps }
{
    if (steps & 1 == 0) == first {
        0xFF
    } else {
        0x00
    }
}

// The auto write covers the whole plane and not the window, which the datasheet leaves open. Of a plane that is no whole number
// of rows, the bytes past the last whole row stay.
pub fn auto_write(plane: &mut [u8], parameter: u8)
    ensures { plane.new ≡ auto_written parameter plane.old }
{
    let first = parameter & 0x80 != 0;
    let height = step_height(parameter);
    let rows = plane.len() / ROW_BYTES;
    // The loops count, since it is the place that decides a byte.
    for row in 0..rows {
        let above = row / height;
        for column in 0..ROW_BYTES {
            let steps = above + steps_before(parameter, column);
            plane[row * ROW_BYTES + column] = step_byte(first, steps);
        }
    }
}
