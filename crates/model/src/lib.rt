// Definitions: what every pass, insertion, interact and question does, on plain values and lists. See specs/; proofs/ shows that devices stay in order.
#![tactic(auto)]
