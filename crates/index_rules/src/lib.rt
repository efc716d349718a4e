// No code: what the live tree's entry points answer and leave, and the theorems that say that this is right, stand in specs/ and proofs/.
#![tactic(auto)]
