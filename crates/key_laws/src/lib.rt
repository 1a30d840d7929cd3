// The theorems over `keys` that no proof of its functions uses: no code. specs/ has what they state, proofs/ the proofs.

#![tactic(auto)]
