// Theorems of the record of the waveform loaded (#108). There is no code here: what it says stands in specs/, the laws in proofs/.
#![tactic(auto)]
