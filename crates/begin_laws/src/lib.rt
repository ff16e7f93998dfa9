// Theorems of the command byte. There is no code here: the definitions stand in begin/specs, the laws in proofs/.
#![tactic(auto)]
