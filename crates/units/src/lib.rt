// What gathering is for, over the events of any run of the machine: definitions in specs/, theorems in proofs/. No code.
#![tactic(auto)]
