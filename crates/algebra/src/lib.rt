// Algebra that knows nothing of this project: it has no code, only the definitions and laws of specs/.
#![tactic(auto)]
