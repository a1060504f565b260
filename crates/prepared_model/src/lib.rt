// What is true of a prepared family: no code, only the facts of specs/.
#![tactic(auto)]
