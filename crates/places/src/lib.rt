// What is true at the place that an answer tells: statements in specs/, their proofs in proofs/.
#![tactic(auto)]
