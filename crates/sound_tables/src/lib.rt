#![tactic(auto)]

// An accepted call leaves a sound table. No code: the theorem stands in specs/.
