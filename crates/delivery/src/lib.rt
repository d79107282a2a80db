// What a delivery is, its messages as calls, and demand 3 of runs in which deliveries stand: definitions in specs/, theorems in proofs/.
#![tactic(auto)]
