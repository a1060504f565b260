// Writing and reading texts: no code, only the laws of specs/.
#![tactic(auto)]
