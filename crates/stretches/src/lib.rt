#![tactic(auto)]

// Demand 3: what a clear takes back. No code: the words of the statement and an example stand in specs/, its proof in proofs/.
