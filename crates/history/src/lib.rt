// Demand 3: what recovery delivers from a log that came from calls. Definitions (specs/) and theorems (proofs/) over the answers of
// append, the prunes, recovery and the payload question; no code.

#![tactic(auto)]
