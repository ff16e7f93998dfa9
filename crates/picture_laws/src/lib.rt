// The panel as a file (#109): its theorems, apart from `pgm` and `history`. There is no code here: the words stand in specs/, the laws in proofs/.
#![tactic(auto)]
