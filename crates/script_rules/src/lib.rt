// No code: what a line of a script means, what is printed for it, and the theorems that say that this is right, stand in specs/ and
// proofs/.
#![tactic(auto)]
