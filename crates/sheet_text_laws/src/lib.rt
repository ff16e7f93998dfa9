// Theorems of drive sheets as text. There is no code here: the definitions stand in sheet_text/specs and specs/, the laws in proofs/.
#![tactic(auto)]
