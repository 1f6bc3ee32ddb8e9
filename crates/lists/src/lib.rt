#![tactic(auto)]

// Theory of lists. No code: the definitions and laws stand in specs/.
