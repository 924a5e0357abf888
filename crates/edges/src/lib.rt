// 01's cases marked P, evaluated on the model. See specs/ and proofs/.
#![tactic(auto)]
