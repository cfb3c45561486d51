#![tactic(auto)]

// What a line and a listing are, and what can be wrong with one: definitions and their laws, no code.
