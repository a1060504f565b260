// Laws over the calls on two channels. Each function lends every list, makes the calls until one refuses, and promises its law of the very
// lists handed out, on what the calls accept. The promises stand in specs/Laws.antt. They are evidence and no library calls.
// Each list is lent for itself, as the calls ask that the laws are over: each call has its own.
#![tactic(auto)]

ghost use Rattle.definitions.specs.Answers.{answered};
ghost use Rattle.joining.specs.Expanding.{signed};
ghost use Rattle.join_laws.specs.Laws.{lists, JoinLaw, ExpandJoinLaw, ChannelsLaw};

use definitions::Refusal;

// What Join hands out lies in the range and leaves the two lists that it was lent, and nothing else does.
fn join_leaves_both(
    m1: u32,
    m2: u32,
    first: &[u32],
    second: &[u32],
    output: &mut [i64],
) -> Result<(), Refusal>
    ensures { JoinLaw m1 m2 first.now second.now (answered result) output.old output.new }
{
    join_calls::join(m1, m2, first, second, output)
}

// What Expand and join hands out leaves what Expand makes of the remainders on each channel, and is exact in its range.
fn expand_join_is_exact(
    m1: u32,
    m2: u32,
    a: &[i32],
    b: &[i32],
    c: &[i32],
    curve: &[i32],
    output: &mut [i64],
) -> Result<(), Refusal>
    ensures { ExpandJoinLaw m1 m2 (signed a.now b.now c.now) curve.now (answered result)
        output.old output.new }
{
    expand_join::expand_join(m1, m2, a, b, c, curve, output)
}

// Expand on each channel, by a call of its own on the remainders, and Join of what these hand out: the list of Expand and join.
fn expands_joined(
    m1: u32,
    m2: u32,
    a: &[i32],
    b: &[i32],
    c: &[i32],
    curve: &[i32],
    a1: &[u32],
    b1: &[u32],
    c1: &[u32],
    curve1: &[u32],
    a2: &[u32],
    b2: &[u32],
    c2: &[u32],
    curve2: &[u32],
    first: &mut [u32],
    second: &mut [u32],
    joined: &mut [i64],
    output: &mut [i64],
) -> Result<(), Refusal>
    ensures { ChannelsLaw m1 m2 (signed a.now b.now c.now) curve.now
        (lists a1.now b1.now c1.now curve1.now)
        (lists a2.now b2.now c2.now curve2.now)
        (answered result) first.old first.new second.old second.new
        joined.old joined.new output.old output.new }
{
    expand_join::expand_join(m1, m2, a, b, c, curve, output)?;
    plain_calls::plain_expand(m1, a1, b1, c1, curve1, first)?;
    plain_calls::plain_expand(m2, a2, b2, c2, curve2, second)?;
    join_calls::join(m1, m2, first, second, joined)
}
