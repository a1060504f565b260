// Lists of numbers and numbers modulo m: no code, only the laws of specs/.
#![tactic(auto)]
