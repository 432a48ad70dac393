// No function: the operations of forward writing and their laws, which stand in specs/ and proofs/.
#![tactic(auto)]
