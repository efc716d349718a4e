// No code: the models of one tree's routines, and the theory that says that they are right, stand in specs/ and proofs/.
#![tactic(auto)]
