// No function: what a tree with its names changed is (E14), in specs/, and that it is lowered alike, in proofs/.
#![tactic(auto)]
