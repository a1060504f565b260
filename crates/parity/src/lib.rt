// Even powers first, as facts: it has no code, only what specs/ proves.
#![tactic(auto)]
