// Mathematics that the layers share: no code. specs/ has the definitions, proofs/ their laws.

#![tactic(auto)]
