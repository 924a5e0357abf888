// Theorems alone, for every format: `narrow` and `sqrt` give the nearest value (specs/Nearest.antt), and they, sums, products and differences keep the order of floats.
#![tactic(auto)]
