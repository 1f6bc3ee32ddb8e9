#![tactic(auto)]

// The requirements report's own schemas, met by the manager. No code: the statements and proofs stand in specs/.
