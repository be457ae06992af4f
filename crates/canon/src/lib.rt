#![tactic(auto)]

// The one way to write a table: definitions and theorems alone, no code.
