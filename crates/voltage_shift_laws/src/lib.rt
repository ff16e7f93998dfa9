// Theorems of the bound on a change of voltage (#112). There is no code here: the definitions stand in voltage_shift/specs, the laws in proofs/.
#![tactic(auto)]
