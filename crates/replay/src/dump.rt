// The dump of a device.
use crate::answers::Answers;
use crate::buffers::Hashes;
use crate::{current, register_lines};
use device::{Power, Ssd1677};
use diagnostic::Journal;
use glass::{PanelImage, RefreshKind};
use panel::{Display, Panel};

fn power(answers: &mut Answers, device: &Ssd1677) {
    match device.bus.power {
        Power::Running => answers.word(b"power running"),
        Power::Asleep => answers.word(b"power asleep"),
        Power::InReset => answers.word(b"power reset"),
    }
    answers.truth_field(device.clock);
    answers.truth_field(device.analog);
    answers.end_line();
}

// Of a state that is refused, nothing is told but when the operation ends.
fn busy(answers: &mut Answers, device: &Ssd1677) {
    answers.word(b"busy");
    answers.truth_field(query_busy::is_busy(*device, device.now).unwrap_or(false));
    answers.truth_field(query_busy::busy_pin(*device, device.now).unwrap_or(false));
    answers.option_field(query_busy::next_deadline(*device).unwrap_or(None));
    answers.option_field(device.bus.busy_until);
    answers.end_line();
}

fn kind(answers: &mut Answers, kind: RefreshKind) {
    match kind {
        RefreshKind::PowerOn => answers.word(b" poweron"),
        RefreshKind::Full => answers.word(b" full"),
        RefreshKind::Partial => answers.word(b" partial"),
    }
}

fn display(answers: &mut Answers, display: Option<Display>) {
    let Some(display) = display else {
        answers.word(b"display -\n");
        return;
    };
    answers.word(b"display");
    answers.field(display.started);
    answers.field(display.ends);
    kind(answers, display.kind);
    answers.hex_field(&[display.border]);
    answers.end_line();
}

fn log(answers: &mut Answers, journal: Journal, hash: u64) {
    answers.word(b"log");
    answers.field(u64::from(journal.count));
    answers.field(journal.dropped);
    answers.field(hash);
    answers.end_line();
}

fn image(answers: &mut Answers, image: PanelImage) {
    answers.word(b"image");
    answers.field(u64::from(image.width));
    answers.field(u64::from(image.height));
    answers.field(u64::from(image.border));
    answers.field(image.generation);
    kind(answers, image.kind);
    answers.truth_field(image.interrupted);
    answers.field(image.started);
    answers.field(image.at);
    answers.end_line();
}

fn glass(answers: &mut Answers, panel: &Panel) {
    answers.word(b"glass");
    answers.signed_field(panel.swing);
    answers.signed_field(panel.border);
    answers.end_line();
}

fn hash(answers: &mut Answers, hashes: &Hashes) {
    answers.word(b"hash");
    answers.field(hashes.black_white);
    answers.field(hashes.red);
    answers.field(hashes.states);
    answers.field(hashes.pixels);
    answers.field(hashes.luts);
    answers.field(hashes.gates);
    answers.end_line();
}

pub fn put(answers: &mut Answers, device: &Ssd1677, hashes: &Hashes) {
    answers.line(b"clock", device.now);
    power(answers, device);
    busy(answers, device);
    register_lines::put(answers, &device.regs);
    register_lines::status(answers, device.status, device.journal.reserved_reported);
    current::put(answers, device.bus.current);
    display(answers, device.display);
    log(answers, device.journal, hashes.log);
    image(answers, device.panel.image);
    glass(answers, &device.panel);
    hash(answers, hashes);
}
