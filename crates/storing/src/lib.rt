// The curve store, as definitions: what specs/ says, and which way a list is asked to go.
#![tactic(auto)]

// Even powers first, or the way back.
// Two kinds without values: neither is the lack of the other, so no Option says it.
#[derive(Clone, Copy)]
pub enum Direction {
    EvenFirst,
    EvenBack,
}
