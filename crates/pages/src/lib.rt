// Demand 3: the symbols read over all the pages of a notice. Definitions and theorems only, in specs/ and proofs/; no code.
#![tactic(auto)]
