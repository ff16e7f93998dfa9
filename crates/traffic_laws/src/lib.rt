// Theorems of events and of lists of them: each is its call, so that History holds of them too. There is no code here: what dispatch and
// traffic do stands in their specs/, the laws in proofs/.
#![tactic(auto)]
