// The theorem of one cut. There is no code here: the definitions stand in res/specs and specs/, the law in proofs/.
#![tactic(auto)]
