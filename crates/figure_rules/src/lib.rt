// No code: what a set adds to the totals, what the figures over many sets are and what is printed of them, and the theorems that say that
// this is right, stand in specs/ and proofs/.
#![tactic(auto)]
