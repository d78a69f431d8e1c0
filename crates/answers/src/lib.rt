// Demand 1 for every call of the product: the statement is in specs/, its proof in proofs/.
#![tactic(auto)]
