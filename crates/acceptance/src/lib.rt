// The tests of the calls as plain facts: no code, only the laws of specs/.
#![tactic(auto)]
