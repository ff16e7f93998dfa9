// The listing of a setting (SCOPE, Listing): a line for each phase with frames, then how long the display runs.
#![tactic(auto)]

mod line;

ghost use Rattle.std.specs.Prelude.{◌≡◌, ◌≤◌, length};
ghost use Rattle.waveform.specs.Voltages.{AllListable};
ghost use Rattle.column.specs.Columns.{buffer, gathered};
ghost use Rattle.listing.specs.Listing.{lines_of, listing_of, text_of, listed, room};

use column::Columns;
use waveform::Waveform;

// The bytes of the longest listing: 40 lines of 52, and the last of 21.
pub const ROOM: usize = 2101;

pub const SETTING_BYTES: usize = 112;

type Text = Columns<ROOM>;

// The lines of ten groups.
fn put_lines(text: &mut Text, waveform: Waveform)
    requires { AllListable waveform.levels }
    ensures { text.new ≡ gathered room text.old (lines_of waveform) }
{
    for number in 0..10 {
        line::put_group(text, waveform.levels, waveform.groups[number], number);
    }
}

// The lines, then the duration.
fn put_listing(text: &mut Text, waveform: Waveform)
    requires { AllListable waveform.levels }
    ensures { text.new ≡ gathered room text.old (listing_of waveform) }
{
    put_lines(text, waveform);
    text.put_number(20, duration::duration_ns(waveform));
    text.put(b'\n');
}

// The listing with its own period for every frame-rate code, or 41 (SCOPE, Listing): the input is not 112 bytes.
fn text_of(setting: &[u8]) -> Text
    ensures { result ≡ text_of setting.now }
{
    let mut text = Text::new();
    let Ok(setting) = <&[u8; SETTING_BYTES]>::try_from(setting) else {
        text.put_text(b" 41\n");
        return text;
    };
    let waveform = setting::from_setting(setting, &[line::PERIOD; 16]);
    put_listing(&mut text, waveform);
    text
}

// Writes the listing of `setting` to the front of `out` and answers its length; ` 41` where `setting` is not 112 bytes long.
// An `out` of fewer than 2,101 bytes stays as it is, and the answer is 0.
pub fn list(setting: &[u8], out: &mut [u8]) -> usize
    ensures text { buffer result out.new ≡ listed setting.now out.old }
    ensures within { result ≤ length out.new }
{
    // Before the text is made, which the test in `write_to` comes after.
    if out.len() < ROOM {
        return 0;
    }
    text_of(setting).write_to(out)
}
