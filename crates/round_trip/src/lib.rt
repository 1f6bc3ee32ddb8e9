// What is written as records is read back as the same calls. No code: the laws stand in specs/.
#![tactic(auto)]
