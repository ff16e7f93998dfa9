// Theorems of a read. There is no code here: the definitions stand in reading/specs, the laws in proofs/.
#![tactic(auto)]
