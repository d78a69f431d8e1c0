// The cases of document 01 that are to be proved: the table and its theorem are in specs/.
#![tactic(auto)]
