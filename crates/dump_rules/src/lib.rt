// No code: what a dump of an index is, what is printed of one, and the theorems that say that this is right, stand in specs/ and proofs/.
#![tactic(auto)]
