// Theorems of the charge. There is no code here: the definitions stand in charges/specs and specs/, the laws in proofs/.
#![tactic(auto)]
