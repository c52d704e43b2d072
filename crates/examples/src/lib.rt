#![tactic(auto)]

// Document 01's examples a to l. No code.
