// The tree way as a model on lists: no code, only the model and laws of specs/.
#![tactic(auto)]
