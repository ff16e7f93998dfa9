// Whether the kind that a state holds for its active command is the one that `kind` gives it.
#![tactic(auto)]

ghost use Rattle.std.specs.Prelude.{◌≡◌};
ghost use Rattle.guard_kinds.specs.Kinds.{current_fine};

use device::Current;

pub fn current_is_fine(current: Current) -> bool
    ensures { result ≡ current_fine current }
{
    match current {
        Current::Idle => true,
        Current::Ignoring => true,
        Current::Active(active) => command::kind(active.command) == Some(active.kind),
    }
}
