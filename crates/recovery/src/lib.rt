// Demand 3 with power cycles for the replica, and for the calls of the C firmware: the statements are in specs/, their proofs in proofs/.
#![tactic(auto)]
