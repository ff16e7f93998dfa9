// Theorems of an accepted start. There is no code here: the definitions stand in power_on/specs, gates_laws/specs and specs/, the laws in proofs/.
#![tactic(auto)]
