// The transfers and greys of many pixels of one swing (glass.rs, `Transfer::apply` and `gray`): what a refresh works out once, so that a
// pixel takes no division, and no branch that its LUT or a state within the swing decides.
#![tactic(auto)]

use glass::Transfer;

pub mod greys;

ghost use Rattle.std.specs.Prelude.{◌≡◌, pos, ◌≤ℤ◌};
ghost use Rattle.glass_tables.specs.Moves.{moved_by, Fitting, Does};

// A transfer with its bounds put before its sum, which then needs no saturation: `x` held between `lo` and `hi`, plus `add`.
#[derive(Clone, Copy)]
pub struct Move {
    pub lo: i64,
    pub hi: i64,
    pub add: i64,
}

// The move that does what a transfer does: its bounds, each less what it adds. A bound that no state of 64 bits comes to is then the end
// of 64 bits; where no sum reaches `lo`, every state goes there. An upper bound below 0 could lie beyond that end, so none is taken.
pub fn move_of(transfer: Transfer) -> Move
    requires { pos 0 ≤ℤ transfer.hi }
    ensures { Does transfer result }
{
    let highest = numbers::saturating_add_i64(i64::MAX, transfer.add);
    if highest < transfer.lo {
        return Move {
            lo: transfer.lo,
            hi: transfer.lo,
            add: 0,
        };
    }
    let lo = transfer.lo.saturating_sub(transfer.add);
    let hi = transfer.hi.saturating_sub(transfer.add);
    Move {
        lo,
        hi,
        add: transfer.add,
    }
}

impl Move {
    // The state that a pixel in `state` has after the move.
    pub fn apply(self, state: i64) -> i64
        requires { Fitting self }
        ensures { result ≡ moved_by self state }
    {
        numbers::clamp_i64(state, self.lo, self.hi) + self.add
    }
}
