// The request's worked examples that are proved: definitions in specs/, the theorem in proofs/. There is no code.
#![tactic(auto)]
