// Theorems of grey counts (#108). There is no code here: the definitions stand in counts/specs, the laws in proofs/.
#![tactic(auto)]
