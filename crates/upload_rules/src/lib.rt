// No code: what an upload is, what each of its bytes does to the reader and the index, and the theorems that say that this is right, stand
// in specs/ and proofs/.
#![tactic(auto)]
