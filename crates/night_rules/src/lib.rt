// No code: which slot shows a broken rule, what the reason is that a tree is not sound, what can be saved of it, and the theorems that say
// that this is right, stand in specs/ and proofs/.
#![tactic(auto)]
