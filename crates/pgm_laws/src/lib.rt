// Theorems of pictures as PGM (#109). There is no code here: the definitions stand in pgm/specs, the laws in proofs/.
#![tactic(auto)]
