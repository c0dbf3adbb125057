// No code: document 01's specimens that are marked P, as one table under one statement (specs/), proved (proofs/).

#![tactic(auto)]
