// Theorems of the stages' definitions. There is no code here: the definitions stand in stages/specs, the laws in proofs/.
#![tactic(auto)]
