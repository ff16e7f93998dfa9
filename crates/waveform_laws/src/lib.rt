// Theorems of a waveform's definitions. There is no code here: the definitions stand in waveform/specs and specs/, the laws in proofs/.
#![tactic(auto)]
