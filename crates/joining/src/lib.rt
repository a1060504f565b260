// Two channels, as definitions: it has no code, only what specs/ says.
#![tactic(auto)]
