#![tactic(auto)]

// What holds of the meaning: a sound model stays sound, how its stores lie and nest, and what each call leaves alone. No code: the laws stand in specs/.
