// Tickets of asked events, over whatever the step of a ticket leaves: the definitions are in specs/, laws of them in proofs/.
#![tactic(auto)]
