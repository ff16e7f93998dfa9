// Theorems of the master activation. There is no code here: the definitions stand in activation/specs, the laws in proofs/.
#![tactic(auto)]
