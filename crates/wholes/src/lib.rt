// Whole numbers and two moduli: what is true of the definitions of `joining`. No code, only the laws of specs/.
#![tactic(auto)]
