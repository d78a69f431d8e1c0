// Demand 3 with power cycles, over any law and any records: the statement is in specs/, its proof in proofs/.
#![tactic(auto)]
