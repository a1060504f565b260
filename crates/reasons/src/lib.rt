// Zero, or a shared factor: what the numbers 17, 10, 18 and 11 say of a family. No code, only the laws of specs/.
#![tactic(auto)]
