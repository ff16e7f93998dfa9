// The counter's steps along its axes (datasheet §8.2–8.5).
ghost use Rattle.std.specs.Prelude.{◌≡◌};
ghost use Rattle.counter.specs.Counter.{axis_step};

// One axis of the counter, in its units (bytes of X, rows of Y): its place, the window's end, and the direction.
#[derive(Clone, Copy)]
pub(crate) struct Axis {
    pub(crate) at: u16,
    pub(crate) end: u16,
    pub(crate) increments: bool,
}

impl Axis {
    // Where one step leads; past the window's end there is none.
    #[tactic(auto, unfolding(crate::specs::Counter::axis_step))]
    pub(crate) fn step(self) -> Option<u16>
        ensures { result ≡ axis_step self.increments self.at self.end }
    {
        if self.increments {
            if self.at < self.end {
                return Some(self.at + 1);
            }
        } else {
            if self.end < self.at {
                return Some(self.at - 1);
            }
        }
        None
    }
}
