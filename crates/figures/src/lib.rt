// SCOPE's checked figures as one list, and its example of a listing. There is no code here: what the definitions of the contracts
// compute and what SCOPE states stand in specs/, the theorems in proofs/.
#![tactic(auto)]
