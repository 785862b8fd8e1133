// Sums held in 16 bits: a definition only, in specs/; no code. The code takes sums, differences, minima and maxima from the library.
#![tactic(auto)]
