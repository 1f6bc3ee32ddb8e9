#![tactic(auto)]

// The meaning of the manager. No code: the definitions and the cases stand in specs/, the laws of the definitions in proofs/.
