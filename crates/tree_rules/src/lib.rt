// No code: one tree as its words hold it, the models of what reads it, and the theorems about them stand in specs/ and proofs/.
#![tactic(auto)]
