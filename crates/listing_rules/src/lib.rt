// No code: what is printed of a loaded set, and the theorems that say that this is right, stand in specs/ and proofs/.
#![tactic(auto)]
