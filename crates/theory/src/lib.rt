// What is true of the definitions: it has no code, only the laws of specs/.
#![tactic(auto)]
