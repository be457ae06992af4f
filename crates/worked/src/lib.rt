// The worked tables: definitions and theorems alone, no code.
#![tactic(auto)]
