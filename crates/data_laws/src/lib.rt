// Theorems of the data bytes. There is no code here: the definitions stand in data/specs, the laws in proofs/.
#![tactic(auto)]
