// No code: what each exported word tells, and which words a reader, a loader and a cursor are, with the theorems that say that this is
// right, stand in specs/ and proofs/.
#![tactic(auto)]
