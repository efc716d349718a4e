// No code: the small trees that the rules work, proved from the definitions, stand in specs/ and proofs/.
#![tactic(auto)]
