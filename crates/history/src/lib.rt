// SCOPE, History: every list of calls from an accepted start beside a plain reckoning. There is no code here: the definitions are
// in specs/, the laws in proofs/.
#![tactic(auto)]
