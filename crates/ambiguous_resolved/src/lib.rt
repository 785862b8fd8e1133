// Document 02, C-11: a text or title with ambiguous glyphs is what it is with their width codes replaced. No code: definitions in
// specs/, theorems in proofs/.
#![tactic(auto)]
