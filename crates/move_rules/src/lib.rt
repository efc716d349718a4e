// No code: what a move of one bin to the next table leaves and answers, what comes of moving all bins, and the theorems that say that this
// is right, stand in specs/ and proofs/.
#![tactic(auto)]
