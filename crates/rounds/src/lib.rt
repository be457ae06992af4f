// Rows worked out in rounds: definitions and theorems alone, no code.
#![tactic(auto)]
