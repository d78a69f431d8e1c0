// Demand 3 for a group of replicas: the statement is in specs/, its proof in proofs/.
#![tactic(auto)]
