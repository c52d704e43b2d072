#![tactic(auto)]

// What holds of writer and reader together. No code.
