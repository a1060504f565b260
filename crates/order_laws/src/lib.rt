// Laws over the calls that put a list in another order. Each function lends every list, makes the calls until one refuses, and promises two
// things: on every input, which refusal is given and what each list then holds; on what the calls accept, that they finish and the law holds of
// the very lists handed out. The promises stand in specs/Laws.antt. They are evidence and no library calls.
// Each list is lent for itself, as the calls ask that the laws are over.
#![tactic(auto)]

ghost use Rattle.definitions.specs.Answers.{answered};
ghost use Rattle.definitions.specs.Family.{family};
ghost use Rattle.storing.specs.declared.Direction.{Direction};
ghost use Rattle.order_laws.specs.Laws.{OrderTrip, EvenExpanded};

use definitions::Refusal;
use laws::{Expanding, Way};

// Even back of what Even first handed out returns the list.
// This and the next are two calls each: one function over a direction would need a match for the public calls, and a law, and is no plainer.
fn back_after_first(list: &[u32], between: &mut [u32], output: &mut [u32]) -> Result<(), Refusal>
    ensures { OrderTrip Direction.EvenFirst list.now (answered result)
        between.old between.new output.old output.new }
{
    order_calls::even_first(list, between)?;
    order_calls::even_back(between, output)
}

// Even first of what Even back handed out returns the list.
fn first_after_back(list: &[u32], between: &mut [u32], output: &mut [u32]) -> Result<(), Refusal>
    ensures { OrderTrip Direction.EvenBack list.now (answered result)
        between.old between.new output.old output.new }
{
    order_calls::even_back(list, between)?;
    order_calls::even_first(between, output)
}

// Even first of what Expand handed out, by either way: where every b is zero, the odd part of a curve with only even entries is zeros, and the
// even part of one with only odd entries.
fn expanded_even_first(
    way: Way,
    m: u32,
    a: &[u32],
    b: &[u32],
    c: &[u32],
    curve: &[u32],
    expanded: &mut [u32],
    output: &mut [u32],
    work: &mut [u32],
) -> Result<(), Refusal>
    ensures { EvenExpanded way (family m a.now b.now c.now) curve.now (answered result)
        expanded.old expanded.new output.old output.new work.old work.new }
{
    laws::by_way::<Expanding>(way, m, a, b, c, curve, expanded, work)?;
    order_calls::even_first(expanded, output)
}
