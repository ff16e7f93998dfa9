// The calls of a device as one list: what each leaves of the state and of every buffer, and what all of them keep. There is no code here:
// the definitions are in specs/, the laws in proofs/.
#![tactic(auto)]
