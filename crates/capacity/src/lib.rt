// Demand 3 over writer, machine and store: definitions in specs/, theorems in proofs/Theorems.antt. No code.
#![tactic(auto)]
