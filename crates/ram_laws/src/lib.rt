// Theorems of the RAM's definitions. There is no code here: the definitions stand in counter/specs and ram/specs, the laws in proofs/.
#![tactic(auto)]
