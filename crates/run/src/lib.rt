#![tactic(auto)]

// The run of a table: definitions, and the theorem that a clear table is safe. There is no code here.
