// The plain ways as models on lists: no code, only the models and laws of specs/.
#![tactic(auto)]
