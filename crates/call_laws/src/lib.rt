// What each call that opens or changes a store answers and leaves, on any store, in document 01's words; and what no call that takes a path looks at. No code. specs/ has the statements, proofs/ their proofs.

#![tactic(auto)]
