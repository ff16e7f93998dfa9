// The state with what it is lent, for the contracts. There is no code here: the definitions stand in specs/.
#![tactic(auto)]
