// Document 01's examples: the starred ones as one theorem, the two title examples, and a worked notice of demand 3, page by page;
// and cases of document 02's C-11. They are in proofs/; no code.
#![tactic(auto)]
