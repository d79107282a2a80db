// What a line record says, its run and the calls that it stands for: definitions in specs/, theorems in proofs/.
#![tactic(auto)]
