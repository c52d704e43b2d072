#![tactic(auto)]

// Definitions and laws that many crates share: lists, sums, bits, computed tests, filled buffers and lent parts. No code.
