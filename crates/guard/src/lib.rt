// What the host must hand over with a call: a state, buffers of the right lengths and a table, or it is refused (SCOPE, Refusals).
#![tactic(auto)]

ghost use Rattle.std.specs.Prelude.{◌≡◌};
ghost use Rattle.guard.specs.Refusals.{number_of, guarded, guarded_with_table};

use device::Ssd1677;
use guard_lengths::Lengths;

// Why a call was refused.
#[derive(Clone, Copy)]
pub enum Refusal {
    // 11: a buffer's length.
    Buffer,
    // 12: the table of waveforms.
    Table,
    // 13: the state.
    State,
    // 15: the table of counts.
    Counts,
}

// The refusal's number.
impl From<Refusal> for u8 {
    ghost from_gives = { λ refusal number. number ≡ number_of refusal };

    fn from(refusal: Refusal) -> u8 {
        match refusal {
            Refusal::Buffer => 11,
            Refusal::Table => 12,
            Refusal::State => 13,
            Refusal::Counts => 15,
        }
    }
}

// What a refused call hands back: the state as it was given.
#[derive(Clone, Copy)]
pub struct Refused {
    pub refusal: Refusal,
    pub state: Ssd1677,
}

// For a call that is lent no table.
pub fn check(state: Ssd1677, lengths: Lengths) -> Result<(), Refusal>
    ensures { result ≡ guarded state lengths }
{
    let config = state.config;
    let fine = guard_state::state_is_fine(state);
    let fit = guard_lengths::lengths_fit(config.panel, lengths);
    let counted = guard_lengths::counts_fit(lengths);
    if !fine {
        return Err(Refusal::State);
    }
    if !fit {
        return Err(Refusal::Buffer);
    }
    if !counted {
        return Err(Refusal::Counts);
    }
    Ok(())
}

// For a call that is lent a table.
pub fn check_with_table(state: Ssd1677, lengths: Lengths, otp: &[u8]) -> Result<(), Refusal>
    ensures { result ≡ guarded_with_table state lengths otp.now }
{
    let bad = otp::is_bad_table(otp);
    check(state, lengths)?;
    if bad {
        return Err(Refusal::Table);
    }
    Ok(())
}
