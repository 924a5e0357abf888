// Calls recorded from egui, evaluated on the model. See specs/ and proofs/.
#![tactic(auto)]
