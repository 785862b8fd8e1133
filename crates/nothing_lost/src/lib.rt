// No code: theorems about the wrapping rules, in proofs/.
#![tactic(auto)]
