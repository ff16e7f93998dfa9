// Theorems of the glass. There is no code here: the definitions stand in panel/specs and specs/, the laws in proofs/.
#![tactic(auto)]
