// The mathematics of the block code, over any field of characteristic 2 and at the bytes. No code.
#![tactic(auto)]
