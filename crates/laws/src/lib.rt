#![tactic(auto)]

// Theorems about the definitions of `spec`: see specs/. Nothing here runs.
