// What a run of calls leaves in a client's copy: definitions in specs/, the theorem in proofs/.
#![tactic(auto)]
