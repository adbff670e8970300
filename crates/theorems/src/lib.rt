// Theorems about the definitions of `rules`, in proofs/: no code.
#![tactic(auto)]
