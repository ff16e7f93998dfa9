// Theorems of the parameters that act at once. There is no code here: the definitions stand in acts/specs, the laws in proofs/.
#![tactic(auto)]
