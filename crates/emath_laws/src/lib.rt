// Theorems alone: what holds of lengths, so that their users open no definition.
#![tactic(auto)]
