// Theorems alone: demand 3 and the facts of every panel that calls reach, stated in specs/ and proved in proofs/.
#![tactic(auto)]
