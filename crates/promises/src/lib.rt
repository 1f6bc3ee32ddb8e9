#![tactic(auto)]

// The three demands, of all that the table's methods hand back. No code: the statements stand in specs/, the proofs of the demands in proofs/.
