// Laws over the public calls. Each function lends every list, makes the calls until one refuses, and promises two things: on every
// input, which refusal is given and what each list then holds; on an accepted family, with curves on it and lists as long as the calls
// ask, that every call finishes and the law holds of the very lists handed out. The promises stand in specs/Laws.antt.
// They are evidence and no library calls: public is what the program `weighing` runs, and what other laws go on from.
// m, a, b and c come apart, and each list is lent for itself, as the calls ask that the laws are over: eight parameters and more.
// plain and tree of a Conversion are those calls. Laws that differ in a conversion alone go through one function, and keep the names of docs/.
#![tactic(auto)]

ghost use Rattle.std.specs.Prelude.{List, ℕ, Some};
ghost use Rattle.definitions.specs.Answers.{answered, PlainCall, TreeCall};
ghost use Rattle.definitions.specs.Conversion.{expand, adjoint, decompose};
ghost use Rattle.definitions.specs.Family.{Family, family};
ghost use Rattle.laws.specs.Names.{name};
ghost use Rattle.laws.specs.Laws.{lists, Made, ThereAndBack, Agreed, HandedOut, Weighed};
ghost use Rattle.laws.specs.RoundTrips.{Undoes};

use definitions::Refusal;
use std::fmt;

// A way of Expand and of Decompose.
// Two kinds without values: neither is the lack of the other, so no Option says it.
#[derive(Clone, Copy, Debug, PartialEq, Eq)]
pub enum Way {
    Plain,
    Tree,
}

// The match is the one table of their names: no derive prints.
impl fmt::Display for Way {
    ghost output = { λ way. Some (name way) };

    fn fmt<W: fmt::Write>(&self, f: &mut fmt::Formatter<W>) -> fmt::Result {
        f.write_str(match self {
            Way::Plain => "plain",
            Way::Tree => "tree",
        })
    }
}

// A conversion, by the public calls of either way.
pub trait Conversion {
    ghost converted: { Family → List ℕ → List ℕ };

    fn plain(
        m: u32,
        a: &[u32],
        b: &[u32],
        c: &[u32],
        curve: &[u32],
        output: &mut [u32],
    ) -> Result<(), Refusal>
        ensures { PlainCall converted (family m a.now b.now c.now) curve.now (answered result)
            output.old output.new };

    fn tree(
        m: u32,
        a: &[u32],
        b: &[u32],
        c: &[u32],
        curve: &[u32],
        output: &mut [u32],
        work: &mut [u32],
    ) -> Result<(), Refusal>
        ensures { TreeCall converted (family m a.now b.now c.now) curve.now (answered result)
            output.old output.new work.old work.new };
}

#[derive(Clone, Copy)]
pub struct Expanding;

impl Conversion for Expanding {
    ghost converted = { expand };

    fn plain(
        m: u32,
        a: &[u32],
        b: &[u32],
        c: &[u32],
        curve: &[u32],
        output: &mut [u32],
    ) -> Result<(), Refusal> {
        plain_calls::plain_expand(m, a, b, c, curve, output)
    }

    fn tree(
        m: u32,
        a: &[u32],
        b: &[u32],
        c: &[u32],
        curve: &[u32],
        output: &mut [u32],
        work: &mut [u32],
    ) -> Result<(), Refusal> {
        tree_calls::tree_expand(m, a, b, c, curve, output, work)
    }
}

#[derive(Clone, Copy)]
struct Adjoining;

impl Conversion for Adjoining {
    ghost converted = { adjoint };

    fn plain(
        m: u32,
        a: &[u32],
        b: &[u32],
        c: &[u32],
        curve: &[u32],
        output: &mut [u32],
    ) -> Result<(), Refusal> {
        plain_calls::plain_adjoint(m, a, b, c, curve, output)
    }

    fn tree(
        m: u32,
        a: &[u32],
        b: &[u32],
        c: &[u32],
        curve: &[u32],
        output: &mut [u32],
        work: &mut [u32],
    ) -> Result<(), Refusal> {
        tree_calls::tree_adjoint(m, a, b, c, curve, output, work)
    }
}

#[derive(Clone, Copy)]
struct Decomposing;

impl Conversion for Decomposing {
    ghost converted = { decompose };

    fn plain(
        m: u32,
        a: &[u32],
        b: &[u32],
        c: &[u32],
        curve: &[u32],
        output: &mut [u32],
    ) -> Result<(), Refusal> {
        plain_calls::plain_decompose(m, a, b, c, curve, output)
    }

    fn tree(
        m: u32,
        a: &[u32],
        b: &[u32],
        c: &[u32],
        curve: &[u32],
        output: &mut [u32],
        work: &mut [u32],
    ) -> Result<(), Refusal> {
        tree_calls::tree_decompose(m, a, b, c, curve, output, work)
    }
}

// A conversion by the way that is asked for.
// The way is asked for at run time (`weighing` goes through both in loops), so a match chooses.
pub fn by_way<C: Conversion>(
    way: Way,
    m: u32,
    a: &[u32],
    b: &[u32],
    c: &[u32],
    curve: &[u32],
    output: &mut [u32],
    work: &mut [u32],
) -> Result<(), Refusal>
    ensures { Made C.converted way (family m a.now b.now c.now) curve.now result
        output.old output.new work.old work.new }
{
    match way {
        Way::Plain => C::plain(m, a, b, c, curve, output),
        Way::Tree => C::tree(m, a, b, c, curve, output, work),
    }
}

// Two conversions of which the second undoes the first: what the first handed out becomes the curve again, by either way each.
fn there_and_back<There: Conversion, Back: Conversion>(
    first: Way,
    second: Way,
    m: u32,
    a: &[u32],
    b: &[u32],
    c: &[u32],
    curve: &[u32],
    converted: &mut [u32],
    returned: &mut [u32],
    work: &mut [u32],
) -> Result<(), Refusal>
    requires { Undoes There.converted Back.converted }
    ensures { ThereAndBack There.converted Back.converted first second (family m a.now b.now c.now) curve.now result
        converted.old converted.new returned.old returned.new work.old work.new }
{
    by_way::<There>(first, m, a, b, c, curve, converted, work)?;
    by_way::<Back>(second, m, a, b, c, converted, returned, work)
}

// Decomposing what Expand handed out returns the curve, by either way each.
fn decompose_after_expand(
    first: Way,
    second: Way,
    m: u32,
    a: &[u32],
    b: &[u32],
    c: &[u32],
    curve: &[u32],
    expanded: &mut [u32],
    returned: &mut [u32],
    work: &mut [u32],
) -> Result<(), Refusal>
    ensures { ThereAndBack expand decompose first second (family m a.now b.now c.now) curve.now result
        expanded.old expanded.new returned.old returned.new work.old work.new }
{
    there_and_back::<Expanding, Decomposing>(
        first, second, m, a, b, c, curve, expanded, returned, work,
    )
}

// Expanding what Decompose handed out returns the coefficients, by either way each.
fn expand_after_decompose(
    first: Way,
    second: Way,
    m: u32,
    a: &[u32],
    b: &[u32],
    c: &[u32],
    coefficients: &[u32],
    decomposed: &mut [u32],
    returned: &mut [u32],
    work: &mut [u32],
) -> Result<(), Refusal>
    ensures { ThereAndBack decompose expand first second (family m a.now b.now c.now) coefficients.now result
        decomposed.old decomposed.new returned.old returned.new work.old work.new }
{
    there_and_back::<Decomposing, Expanding>(
        first,
        second,
        m,
        a,
        b,
        c,
        coefficients,
        decomposed,
        returned,
        work,
    )
}

// A conversion by the plain way and by the tree way: the same list.
fn by_both_ways<C: Conversion>(
    m: u32,
    a: &[u32],
    b: &[u32],
    c: &[u32],
    curve: &[u32],
    plain: &mut [u32],
    tree: &mut [u32],
    work: &mut [u32],
) -> Result<(), Refusal>
    ensures { Agreed C.converted (family m a.now b.now c.now) curve.now result
        plain.old plain.new tree.old tree.new work.old work.new }
{
    C::plain(m, a, b, c, curve, plain)?;
    C::tree(m, a, b, c, curve, tree, work)
}

// Expand by the plain way and by the tree way: the same list.
fn expand_by_both_ways(
    m: u32,
    a: &[u32],
    b: &[u32],
    c: &[u32],
    curve: &[u32],
    plain: &mut [u32],
    tree: &mut [u32],
    work: &mut [u32],
) -> Result<(), Refusal>
    ensures { Agreed expand (family m a.now b.now c.now) curve.now result
        plain.old plain.new tree.old tree.new work.old work.new }
{
    by_both_ways::<Expanding>(m, a, b, c, curve, plain, tree, work)
}

// Adjoint by the plain way and by the tree way: the same list.
fn adjoint_by_both_ways(
    m: u32,
    a: &[u32],
    b: &[u32],
    c: &[u32],
    curve: &[u32],
    plain: &mut [u32],
    tree: &mut [u32],
    work: &mut [u32],
) -> Result<(), Refusal>
    ensures { Agreed adjoint (family m a.now b.now c.now) curve.now result
        plain.old plain.new tree.old tree.new work.old work.new }
{
    by_both_ways::<Adjoining>(m, a, b, c, curve, plain, tree, work)
}

// Decompose by the plain way and by the tree way: the same list.
fn decompose_by_both_ways(
    m: u32,
    a: &[u32],
    b: &[u32],
    c: &[u32],
    coefficients: &[u32],
    plain: &mut [u32],
    tree: &mut [u32],
    work: &mut [u32],
) -> Result<(), Refusal>
    ensures { Agreed decompose (family m a.now b.now c.now) coefficients.now result
        plain.old plain.new tree.old tree.new work.old work.new }
{
    by_both_ways::<Decomposing>(m, a, b, c, coefficients, plain, tree, work)
}

// Expand for u and for v, Moments and Norms, until one refuses.
fn hand_out(
    first: Way,
    second: Way,
    m: u32,
    a: &[u32],
    b: &[u32],
    c: &[u32],
    u: &[u32],
    v: &[u32],
    s: &mut [u32],
    t: &mut [u32],
    moment: &mut [u32],
    norm: &mut [u32],
    work: &mut [u32],
) -> Result<(), Refusal>
    ensures { HandedOut first second (family m a.now b.now c.now) u.now v.now
        (lists s.old t.old moment.old norm.old work.old) result
        (lists s.new t.new moment.new norm.new work.new) }
{
    by_way::<Expanding>(first, m, a, b, c, u, s, work)?;
    by_way::<Expanding>(second, m, a, b, c, v, t, work)?;
    tree_calls::moments(m, a, b, c, moment, work)?;
    plain_calls::norms(m, a, b, c, norm)
}

// The product law, demand 3: the uncut product of what Expand hands out for u and for v, weighed with the moments, and the products of
// the entries of u and v, weighed with the norms. Both totals are answered, that by the moments first, and are equal; each norm has an inverse.
pub fn product_law(
    first: Way,
    second: Way,
    m: u32,
    a: &[u32],
    b: &[u32],
    c: &[u32],
    u: &[u32],
    v: &[u32],
    s: &mut [u32],
    t: &mut [u32],
    moment: &mut [u32],
    norm: &mut [u32],
    work: &mut [u32],
) -> Result<(u32, u32), Refusal>
    ensures { Weighed first second (family m a.now b.now c.now) u.now v.now
        (lists s.old t.old moment.old norm.old work.old) result
        (lists s.new t.new moment.new norm.new work.new) }
{
    hand_out(first, second, m, a, b, c, u, v, s, t, moment, norm, work)?;
    let n = a.len() + 1;
    let by_moments = totals::moment_total(m, n, s, t, moment);
    let by_norms = totals::norm_total(m, n, u, v, norm);
    Ok((by_moments, by_norms))
}
