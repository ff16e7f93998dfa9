// The buffers that the device is lent, and what is made of them.
use config::Ssd1677Config;
use device::Ssd1677;
use event::Event;
use guard::Refused;
use power_on::RefusedStart;
use ssd1677::Reading;
use traffic::Fed;

// Pixels and rows of the largest panel.
pub const PIXELS: usize = 652800;

pub const ROWS: usize = 680;

// A plane and the log's 1,024 records of 16 bytes, with one byte more, and the counts of 256 greys, with one more, so that they can be lent
// too long.
pub const PLANE: usize = 81601;

pub const LOG: usize = 16385;

pub const COUNTS: usize = 257;

// The lengths that the buffers and the table are lent with, where there is as much.
#[derive(Clone, Copy)]
pub struct Lengths {
    pub states: usize,
    pub luts: usize,
    pub pixels: usize,
    pub counts: usize,
    pub black_white: usize,
    pub red: usize,
    pub gates: usize,
    pub log: usize,
    pub table: usize,
}

#[derive(Drop)]
pub struct Buffers<'a> {
    pub states: &'a mut [i64],
    pub luts: &'a mut [u8],
    pub pixels: &'a mut [u8],
    pub counts: &'a mut [u32],
    pub black_white: &'a mut [u8],
    pub red: &'a mut [u8],
    pub gates: &'a mut [u16],
    pub log: &'a mut [u8],
}

// What a dump tells of the buffers.
#[derive(Clone, Copy)]
pub struct Hashes {
    pub log: u64,
    pub black_white: u64,
    pub red: u64,
    pub states: u64,
    pub pixels: u64,
    pub luts: u64,
    pub gates: u64,
}

// Data that are made at once at most, and their kinds.
pub const LIST: usize = 1024;

static DATA: [u8; LIST] = [burst::DATA; LIST];

// The front of a buffer, but never more than there is: a panel that asks for more is refused before the buffers are looked at.
fn front_mut<T>(buffer: &mut [T], length: usize) -> &mut [T] {
    let end = length.min(buffer.len());
    &mut buffer[..end]
}

pub fn front<T>(buffer: &[T], length: usize) -> &[T] {
    let end = length.min(buffer.len());
    &buffer[..end]
}

impl Buffers<'_> {
    pub fn start(
        &mut self,
        lengths: &Lengths,
        config: Ssd1677Config,
        otp: &[u8],
    ) -> Result<Ssd1677, RefusedStart> {
        power_on::new(
            config,
            front_mut(self.states, lengths.states),
            front_mut(self.luts, lengths.luts),
            front_mut(self.pixels, lengths.pixels),
            front_mut(self.counts, lengths.counts),
            front_mut(self.black_white, lengths.black_white),
            front_mut(self.red, lengths.red),
            front_mut(self.gates, lengths.gates),
            front_mut(self.log, lengths.log),
            otp,
        )
    }

    pub fn tell(
        &mut self,
        lengths: &Lengths,
        device: Ssd1677,
        otp: &[u8],
        event: Event,
    ) -> Result<Reading, Refused> {
        dispatch::dispatch(
            device,
            front_mut(self.states, lengths.states),
            front_mut(self.luts, lengths.luts),
            front_mut(self.pixels, lengths.pixels),
            front_mut(self.counts, lengths.counts),
            front_mut(self.black_white, lengths.black_white),
            front_mut(self.red, lengths.red),
            front_mut(self.gates, lengths.gates),
            front_mut(self.log, lengths.log),
            otp,
            event,
        )
    }

    // Data that are made as a list of events.
    pub fn feed(
        &mut self,
        lengths: &Lengths,
        device: Ssd1677,
        otp: &[u8],
        times: &[u64],
        values: &[u8],
    ) -> Fed {
        traffic::feed(
            device,
            front_mut(self.states, lengths.states),
            front_mut(self.luts, lengths.luts),
            front_mut(self.pixels, lengths.pixels),
            front_mut(self.counts, lengths.counts),
            front_mut(self.black_white, lengths.black_white),
            front_mut(self.red, lengths.red),
            front_mut(self.gates, lengths.gates),
            front_mut(self.log, lengths.log),
            otp,
            &DATA,
            times,
            values,
        )
    }

    pub fn hashes(&self, lengths: &Lengths) -> Hashes {
        Hashes {
            log: hash::of_bytes(front(self.log, lengths.log)),
            black_white: hash::of_bytes(front(self.black_white, lengths.black_white)),
            red: hash::of_bytes(front(self.red, lengths.red)),
            states: hash::of_states(front(self.states, lengths.states)),
            pixels: hash::of_bytes(front(self.pixels, lengths.pixels)),
            luts: hash::of_bytes(front(self.luts, lengths.luts)),
            gates: hash::of_words(front(self.gates, lengths.gates)),
        }
    }

    pub fn hash_of_counts(&self, lengths: &Lengths) -> u64 {
        hash::of_counts(front(self.counts, lengths.counts))
    }

    pub fn picture(&self, lengths: &Lengths) -> &[u8] {
        front(self.pixels, lengths.pixels)
    }
}
