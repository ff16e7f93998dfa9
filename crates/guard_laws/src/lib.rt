// Theorems of what a call refuses. There is no code here: the definitions stand in the specs of guard, guard_kinds, guard_lengths and
// guard_state, the laws in proofs/.
#![tactic(auto)]
