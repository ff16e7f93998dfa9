// A run: the lines that it takes, and what each does.
use crate::answers::Answers;
use crate::buffers::{self, Buffers, Lengths};
use crate::setup::Setup;
use crate::{dump, handed, picture};
use device::Ssd1677;
use event::Event;
use guard::Refusal;
use line::Line;
use power_on::StartRefusal;
use std::io;

// What is left to do of data that a line makes many times.
#[derive(Clone, Copy)]
struct Data {
    device: Ssd1677,
    left: u64,
}

#[derive(Drop)]
pub struct Run<'a> {
    // None before a start.
    device: Option<Ssd1677>,
    buffers: Buffers<'a>,
    setup: Setup,
    answers: Answers,
    // Lines taken.
    lines: u64,
    // How often the next data or read line is made, where a line has said so.
    repeat: Option<u64>,
    // After a bad line nothing is taken any more. No Option about the rest: the text gathered until then is still written.
    ended: bool,
}

impl<'a> Run<'a> {
    pub fn new(buffers: Buffers<'a>) -> Run<'a> {
        Run {
            device: None,
            buffers,
            setup: Setup::new(),
            answers: Answers::new(),
            lines: 0,
            repeat: None,
            ended: false,
        }
    }

    // Takes a line, and writes the text when there is enough of it: after what the line itself says, before an event's answer.
    pub fn take(&mut self, rt: &(impl Print + Eprint), bytes: &[u8]) -> io::Result<()> {
        if self.ended {
            return Ok(());
        }
        self.lines = self.lines.saturating_add(1);
        let Some(line) = line::parse(bytes) else {
            self.answers.line(b"bad line", self.lines);
            self.ended = true;
            return self.answers.flush_when_long(rt);
        };
        if let Line::Case(value) = line {
            self.case(value);
        }
        self.answers.flush_when_long(rt)?;
        self.obey(rt, line)
    }

    pub fn flush(&mut self, rt: &(impl Print + Eprint)) -> io::Result<()> {
        self.answers.flush(rt)
    }

    fn obey(&mut self, rt: &(impl Print + Eprint), line: Line) -> io::Result<()> {
        match line {
            Line::Event(event) => self.event(rt, event)?,
            Line::Repeat(count) => self.repeat = Some(count),
            Line::Case(_) => (),
            Line::Field(field, n) => self.setup.fields.set(field, n),
            Line::Otp(place, byte) => self.setup.otp.set(place, byte),
            Line::Start => self.start(),
            Line::Lent(buffer, length) => self.setup.lend(buffer, length),
            _ => {
                if let Some(device) = self.device {
                    self.ask(rt, line, device)?;
                }
            }
        }
        Ok(())
    }

    // The lines that are no events and do nothing before a start: what is asked of the device, and what the host changes in it.
    fn ask(&mut self, rt: &(impl Print + Eprint), line: Line, device: Ssd1677) -> io::Result<()> {
        let lengths = self.setup.lengths(device.config.panel);
        match line {
            Line::Query(time) => self.query(device, time),
            Line::Dump => dump::put(&mut self.answers, &device, &self.buffers.hashes(&lengths)),
            Line::Ambient(register) => self.set_ambient(device, register),
            Line::TakeDiagnostics => self.take_diagnostics(device),
            Line::State(field, n) => self.device = Some(handed::with(device, field, n)),
            Line::Picture => self.picture(rt, device, &lengths)?,
            Line::Counts => self.counts(device, &lengths),
            _ => (),
        }
        Ok(())
    }

    fn refused(&mut self, refusal: Refusal) {
        self.answers.line(b"refused", u64::from(u8::from(refusal)));
    }

    fn case(&mut self, value: u16) {
        self.setup.clear();
        self.device = None;
        self.answers.line(b"case", u64::from(value));
    }

    // Where a start is refused, nothing is started.
    fn start(&mut self) {
        self.setup.keep_table();
        let config = self.setup.fields.config();
        let lengths = self.setup.lengths(config.panel);
        let table = self.setup.table.front(lengths.table);
        match self.buffers.start(&lengths, config, table) {
            Ok(device) => {
                self.device = Some(device);
                self.answers.word(b"start ok\n");
            }
            Err(refused) => {
                self.device = None;
                self.start_refused(StartRefusal::from(refused.error));
            }
        }
    }

    fn start_refused(&mut self, refusal: StartRefusal) {
        self.answers.word(b"start refused");
        self.answers.field(u64::from(refusal.number));
        self.answers.field(refusal.value as u64);
        self.answers.end_line();
    }

    // How often an event is made: a count is used up by data and reads, before a start too.
    fn times(&mut self, event: Event) -> u64 {
        match event {
            Event::Data(_, _) | Event::Read(_) => self.repeat.take().unwrap_or(1),
            _ => 1,
        }
    }

    // The event is handed to the device, as often as its count asks.
    fn event(&mut self, rt: &(impl Print + Eprint), event: Event) -> io::Result<()> {
        let times = self.times(event);
        if let Some(device) = self.device {
            let lengths = self.setup.lengths(device.config.panel);
            let mut next = device;
            let mut left = times;
            if let Event::Data(time, byte) = event {
                if 1 < times {
                    let fed = self.feed(&lengths, next, time, byte, times);
                    next = fed.device;
                    left = fed.left;
                }
            }
            for _ in 0..left {
                self.tell(rt, &lengths, &mut next, event)?;
            }
            self.device = Some(next);
        }
        Ok(())
    }

    // Data that a line makes many times, as lists of events. From the first one on that is refused none are made.
    fn feed(
        &mut self,
        lengths: &Lengths,
        device: Ssd1677,
        time: u64,
        byte: u8,
        times: u64,
    ) -> Data {
        let table = self.setup.table.front(lengths.table);
        let moments = [time; buffers::LIST];
        let values = [byte; buffers::LIST];
        let mut data = Data {
            device,
            left: times,
        };
        for _ in 0..times.div_ceil(buffers::LIST as u64) {
            let count = data.left.min(buffers::LIST as u64) as usize;
            let fed = self.buffers.feed(
                lengths,
                data.device,
                table,
                &moments[..count],
                &values[..count],
            );
            data.device = fed.state;
            data.left = data.left.saturating_sub(fed.made as u64);
            if fed.answer.is_err() {
                break;
            }
        }
        data
    }

    // A refused call hands the state back as it was given.
    fn tell(
        &mut self,
        rt: &(impl Print + Eprint),
        lengths: &Lengths,
        device: &mut Ssd1677,
        event: Event,
    ) -> io::Result<()> {
        let table = self.setup.table.front(lengths.table);
        let told = self.buffers.tell(lengths, *device, table, event);
        self.answers.flush_when_long(rt)?;
        match told {
            Ok(reading) => {
                *device = reading.state;
                if let Event::Read(_) = event {
                    self.read(reading.byte);
                }
            }
            Err(refused) => self.refused(refused.refusal),
        }
        Ok(())
    }

    // The byte of a read, or that nothing is driven.
    fn read(&mut self, byte: Option<u8>) {
        match byte {
            Some(byte) => {
                self.answers.word(b"read");
                self.answers.hex_field(&[byte]);
                self.answers.end_line();
            }
            None => self.answers.word(b"read --\n"),
        }
    }

    fn query(&mut self, device: Ssd1677, time: u64) {
        let busy = query_busy::is_busy(device, time);
        let pin = query_busy::busy_pin(device, time);
        match (busy, pin) {
            (Ok(busy), Ok(pin)) => {
                self.answers.word(b"query");
                self.answers.truth_field(busy);
                self.answers.truth_field(pin);
                self.answers.end_line();
            }
            (Err(refusal), _) | (_, Err(refusal)) => self.refused(refusal),
        }
    }

    fn set_ambient(&mut self, device: Ssd1677, register: u16) {
        match query::set_ambient(device, register) {
            Ok(device) => self.device = Some(device),
            Err(refused) => self.refused(refused.refusal),
        }
    }

    fn take_diagnostics(&mut self, device: Ssd1677) {
        match query::take_diagnostics(device) {
            Ok(taken) => {
                self.device = Some(taken.state);
                self.answers.line(b"taken", u64::from(taken.count));
            }
            Err(refused) => self.refused(refused.refusal),
        }
    }

    fn picture(
        &mut self,
        rt: &(impl Print + Eprint),
        device: Ssd1677,
        lengths: &Lengths,
    ) -> io::Result<()> {
        match query_state::panel_image(device) {
            Ok(image) => picture::put(rt, &mut self.answers, image, self.buffers.picture(lengths)),
            Err(refused) => {
                self.refused(refused.refusal);
                Ok(())
            }
        }
    }

    // The counts of greys, and the entry of the last waveform loaded.
    fn counts(&mut self, device: Ssd1677, lengths: &Lengths) {
        match query::check_state(device) {
            Ok(()) => {
                let hash = self.buffers.hash_of_counts(lengths);
                self.answers.word(b"counts");
                self.answers.field(hash);
                self.answers.field(u64::from(device.regs.waveform));
                self.answers.end_line();
            }
            Err(refusal) => self.refused(refusal),
        }
    }
}
