// Theorems of the definitions of gates and rows. There is no code here: the definitions stand in gates/specs and specs/, the laws in proofs/.
#![tactic(auto)]
