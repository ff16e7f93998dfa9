// The lines of the registers.
use crate::answers::Answers;
use device::{Registers, Status};
use ram::Window;

fn mux(answers: &mut Answers, regs: &Registers) {
    answers.word(b"mux");
    answers.field(u64::from(regs.mux));
    answers.truth_field(regs.gate_scan.sm);
    answers.truth_field(regs.gate_scan.gd);
    answers.end_line();
}

fn window(answers: &mut Answers, entry: u8, window: Window) {
    answers.word(b"window");
    answers.field(u64::from(entry));
    answers.field(u64::from(window.x_start));
    answers.field(u64::from(window.x_end));
    answers.field(u64::from(window.y_start));
    answers.field(u64::from(window.y_end));
    answers.end_line();
}

fn counter(answers: &mut Answers, regs: &Registers) {
    answers.word(b"counter");
    answers.field(u64::from(regs.counter.x));
    answers.field(u64::from(regs.counter.y));
    answers.end_line();
}

fn control(answers: &mut Answers, regs: &Registers) {
    answers.word(b"control");
    answers.field(u64::from(regs.update_control_1[0]));
    answers.field(u64::from(regs.update_control_1[1]));
    answers.field(u64::from(regs.update_control_2));
    answers.end_line();
}

fn misc(answers: &mut Answers, regs: &Registers) {
    answers.word(b"misc");
    answers.field(u64::from(regs.sensor));
    answers.field(u64::from(regs.temperature));
    answers.field(u64::from(regs.vcom_sense));
    answers.field(u64::from(regs.border));
    answers.truth_field(regs.read_ram_red);
    answers.end_line();
}

fn option(answers: &mut Answers, regs: &Registers) {
    answers.word(b"option");
    answers.hex_field(&regs.display_option);
    answers.hex_field(&regs.user_id);
    answers.end_line();
}

fn setting(answers: &mut Answers, regs: &Registers) {
    answers.word(b"setting");
    answers.hex_field(&regs.lut);
    answers.end_line();
}

pub fn status(answers: &mut Answers, status: Status, reserved_reported: bool) {
    answers.word(b"status");
    answers.truth_field(status.hv_not_ready);
    answers.truth_field(status.vci_low);
    answers.truth_field(reserved_reported);
    answers.end_line();
}

pub fn put(answers: &mut Answers, regs: &Registers) {
    mux(answers, regs);
    window(answers, regs.entry.0, regs.window);
    counter(answers, regs);
    control(answers, regs);
    misc(answers, regs);
    option(answers, regs);
    setting(answers, regs);
}
