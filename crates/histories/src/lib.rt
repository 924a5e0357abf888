// Definitions and theorems alone: histories of the code, and demand 3 of them. See specs/History.antt.
#![tactic(auto)]
