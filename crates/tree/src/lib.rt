// Expand and Adjoint by the subproduct tree, on input that is already checked. Both work in the first 16,384 numbers of the working list and
// leave zeros there: the tree from place 0 on, the vectors and their scratch from place 9,212 on. Of n - 1 rows the first n entries of the curve
// take part, and of the output the first n are written: `expand` and `adjoint` are lent lists of these lengths or longer, and the functions
// that they hand them to (`expand_whole`, `adjoint_whole`) lists that are just as long.
// root_pair takes places: slices of that one list cannot be lent side by side where one of them is written, and there is no heap.
#![tactic(auto)]

ghost use Rattle.std.specs.Prelude.{◌≡◌, List, ℕ, ◌+◌, ◌≤◌, length, get_or, take};
ghost use Rattle.definitions.specs.Answers.{cleared};
ghost use Rattle.definitions.specs.Conversion.{expand, adjoint};
ghost use Rattle.definitions.specs.Family.{Curve, size};
ghost use Rattle.definitions.specs.Family as definition;
ghost use Rattle.definitions.specs.Refusals.{work_length};
ghost use Rattle.lists.specs.Held.{Output};
ghost use Rattle.numbers.specs.Lists.{filled};
ghost use Rattle.numbers.specs.Regions.{part, written};
ghost use Rattle.numbers.specs.Products.{plus_product};
ghost use Rattle.subproduct.specs.Layout.{Level};
ghost use Rattle.tree.specs.Root.{LevelOf, RootInput, CoefficientInput, root_entry};
ghost use Rattle.tree.specs.RootPair.{StretchInput, stretched, PairInput, PairOutput};
ghost use Rattle.tree.specs.Input.{Input};
ghost use Rattle.tree.specs.Core.{TreeOutput, expand_vectors, adjoint_vectors};

#[cfg(test)]
mod tests;

use convolution::products_at;
use lists::{Family, clear, entry, store};
use products::transposed;
use reduction::Modulus;
use subproduct::{build, climb, descend};

// The level of the least tree that covers n rows.
fn level_for(n: usize) -> usize
    requires { (2 ≤ n) × (n ≤ 256) }
    ensures { LevelOf n result }
{
    let top = (n - 1) as u32;
    (31 - u32::leading_zeros(top)) as usize
}

// The pairs of rows that a tree of this level covers.
fn pairs_for(level: usize) -> usize
    requires { level ≤ 7 }
    ensures { Level level result }
{
    1 << level
}

// The coefficient of x^k in v_0 F_0 + v_1 F_1, where v_0 and v_1 are the lists of span numbers from place at on, and first is F_1.
fn root_coefficient(m: Modulus, w: &[u32], at: usize, span: usize, first: &[u32], k: usize) -> u32
    requires { CoefficientInput m.value w.now at span first.now k }
    ensures { result ≡ root_entry m.value w.now at span first.now k }
{
    let one = [1u32, 0];
    let second = at + span;
    products_at(
        m,
        0,
        &w[at..at + span],
        &one,
        &w[second..second + span],
        first,
        k,
    )
}

// Writes the coefficients of v_0 F_0 + v_1 F_1, from the pair of the root, as many as the output has room for.
fn expand_root(m: u32, w: &[u32], at: usize, span: usize, first: &[u32], output: &mut [u32])
    requires { RootInput m w.now at span first.now (length output.old) output.old }
    ensures { output.new ≡ plus_product m (length output.old)
        (part w.now at span) (part w.now (at + span) span) first.now }
{
    let modulus = Modulus::new(m);
    for k in 0..output.len() {
        output[k] = root_coefficient(modulus, w, at, span, first, k);
    }
}

// Writes the curve from entry first on: at place at and on, with zeros behind, span numbers in all.
fn stretch(curve: &[u32], first: usize, w: &mut [u32], at: usize, span: usize)
    requires { StretchInput curve.now (length curve.now) first w.old at span }
    ensures { w.new ≡ written w.old at (stretched span first curve.now) }
{
    for i in 0..span {
        let place = at + i;
        w[place] = entry(curve, first + i);
    }
}

// Writes the pair of the root from place at on: the transposed products of the curve with F_0 = 1, which is the curve, and with
// F_1 = b + a x, of which b meets the curve and a the curve from its second entry on. Behind the pair b and a are left, and behind them the
// curve from its second entry on.
fn root_pair(m: u32, b: u32, a: u32, curve: &[u32], w: &mut [u32], at: usize, span: usize)
    requires { PairInput m b a curve.now (length curve.now) w.old at span }
    ensures { PairOutput m b a curve.now w.old at span w.new }
{
    let second = at + span;
    let behind = second + span;
    let onward = behind + 2;
    stretch(curve, 0, w, at, span);
    store(w, behind, [b, a]);
    stretch(curve, 1, w, onward, span);
    transposed(m, w, second, span, behind, behind + 1, 1, at, onward, span);
}

// Expand with two entries at least: the tree is stored, the pairs climb it to the root, and the root's pair gives the coefficients. The
// tree and that pair are left in the working list, for `expand_whole` to clear.
fn expand_tree(family: &Family, curve: &[u32], output: &mut [u32], work: &mut [u32])
    requires curve { Curve family.now curve.now }
    requires many { 2 ≤ length curve.now }
    requires few { length curve.now ≤ 256 }
    requires room { length output.old ≡ length curve.now }
    requires work { work_length ≤ length work.old }
    ensures { TreeOutput expand expand_vectors
        family.now curve.now (length curve.now) output.old output.new work.old work.new }
{
    let m = family.modulus;
    let n = curve.len();
    let level = level_for(n);
    let pairs = pairs_for(level);
    let first = [family.b[0], family.a[0]];
    build(family, work, 0, level, pairs, 0);
    climb(m, curve, n, work, 0, 9212, level, pairs, 0);
    expand_root(m, work, 9212, pairs + pairs, &first, output);
}

// The first count entries of from take the place of those of to. Not by std's copy, as `copy` of lists: between two lists that are lent the
// compiler makes memmove of it, and the library asks others for memcpy and memset alone.
#[tactic(auto, using(lists::proofs::Fills::fillings))]
fn copy_out(from: &[u32], count: usize, to: &mut [u32])
    requires { (count ≤ length from.now) × (count ≤ length to.old) }
    ensures { to.new ≡ filled (λ i. get_or from.now i 0) count to.old }
{
    for i in 0..count {
        to[i] = from[i];
    }
}

// Adjoint with two entries at least: the tree is stored, and the root's pair descends it to the entries. The tree, that pair and the
// entries are left in the working list, and scratch behind them, for `adjoint_whole` to clear.
fn adjoint_tree(family: &Family, curve: &[u32], output: &mut [u32], work: &mut [u32])
    requires curve { Curve family.now curve.now }
    requires many { 2 ≤ length curve.now }
    requires few { length curve.now ≤ 256 }
    requires room { length output.old ≡ length curve.now }
    requires work { work_length ≤ length work.old }
    ensures { TreeOutput adjoint adjoint_vectors
        family.now curve.now (length curve.now) output.old output.new work.old work.new }
{
    let m = family.modulus;
    let n = curve.len();
    let level = level_for(n);
    let pairs = pairs_for(level);
    let second = 9212 + (pairs + pairs);
    let at = second + (pairs + pairs);
    build(family, work, 0, level, pairs, 0);
    root_pair(
        m,
        family.b[0],
        family.a[0],
        curve,
        work,
        9212,
        pairs + pairs,
    );
    descend(m, work, 0, 9212, second, at, level, pairs);
    copy_out(&work[at..], n, output);
}

// Expand on lists that are just as long: the coefficients of the sum of the u_j F_j. Up to 256 entries the tree fits.
// expand_whole and adjoint_whole differ in the function with the tree alone. Above them the choice is a type, `Conversion`; a trait for these
// two would be no plainer.
pub fn expand_whole(family: &Family, curve: &[u32], output: &mut [u32], work: &mut [u32])
    requires curve { Curve family.now curve.now }
    requires few { length curve.now ≤ 256 }
    requires room { length output.old ≡ length curve.now }
    requires work { work_length ≤ length work.old }
    ensures written { output.new ≡ expand family.now curve.now }
    ensures wiped { work.new ≡ cleared work.old }
{
    if curve.len() == 1 {
        output[0] = curve[0] % family.modulus;
        clear(work);
        return;
    }
    expand_tree(family, curve, output, work);
    clear(work);
}

// Adjoint on lists that are just as long: entry j is the sum over i of u_i times the coefficient of x^i in F_j.
pub fn adjoint_whole(family: &Family, curve: &[u32], output: &mut [u32], work: &mut [u32])
    requires curve { Curve family.now curve.now }
    requires few { length curve.now ≤ 256 }
    requires room { length output.old ≡ length curve.now }
    requires work { work_length ≤ length work.old }
    ensures written { output.new ≡ adjoint family.now curve.now }
    ensures wiped { work.new ≡ cleared work.old }
{
    if curve.len() == 1 {
        output[0] = curve[0] % family.modulus;
        clear(work);
        return;
    }
    adjoint_tree(family, curve, output, work);
    clear(work);
}

// Expand: the n first coefficients of the sum of the u_j F_j, of n - 1 rows and the first n entries of the curve. What lies behind the n first
// numbers of the output stays.
pub fn expand(family: &Family, curve: &[u32], output: &mut [u32], work: &mut [u32])
    requires { Input family.now.m family.now.a family.now.b family.now.c
        curve.now (size family.now) output.old work.old }
    ensures { Output (expand family.now (take (size family.now) curve.now)) (size family.now)
        output.old output.new work.old work.new }
{
    let n = family.a.len() + 1;
    expand_whole(family, &curve[..n], &mut output[..n], work);
}

// Adjoint: entry j is the sum over i of u_i times the coefficient of x^i in F_j, for j below n; curve and output are as for expand.
pub fn adjoint(family: &Family, curve: &[u32], output: &mut [u32], work: &mut [u32])
    requires { Input family.now.m family.now.a family.now.b family.now.c
        curve.now (size family.now) output.old work.old }
    ensures { Output (adjoint family.now (take (size family.now) curve.now)) (size family.now)
        output.old output.new work.old work.new }
{
    let n = family.a.len() + 1;
    adjoint_whole(family, &curve[..n], &mut output[..n], work);
}

// A conversion by the tree, on input that is already checked. convert is lent a curve and an output that are just as long as the family asks.
// From it the trait gives convert_front, which may be lent longer ones: the first n entries of the curve take part, and what lies behind the n
// first numbers of the output stays. Expanding and Adjoining take expand and adjoint for it, which do the same.
// The plain way has a trait of its own by this name: its conversions are lent no working list.
pub trait Conversion {
    ghost converted: { definition.Family → List ℕ → List ℕ };

    fn convert(family: &Family, curve: &[u32], output: &mut [u32], work: &mut [u32])
        requires curve { Curve family.now curve.now }
        requires few { length curve.now ≤ 256 }
        requires room { length output.old ≡ length curve.now }
        requires work { work_length ≤ length work.old }
        ensures written { output.new ≡ converted family.now curve.now }
        ensures wiped { work.new ≡ cleared work.old };

    fn convert_front(family: &Family, curve: &[u32], output: &mut [u32], work: &mut [u32])
        requires { Input family.now.m family.now.a family.now.b family.now.c
            curve.now (size family.now) output.old work.old }
        ensures { Output (converted family.now (take (size family.now) curve.now)) (size family.now)
            output.old output.new work.old work.new }
    {
        let n = family.a.len() + 1;
        Self::convert(family, &curve[..n], &mut output[..n], work);
    }
}

#[derive(Clone, Copy)]
pub struct Expanding;

impl Conversion for Expanding {
    ghost converted = { expand };

    fn convert(family: &Family, curve: &[u32], output: &mut [u32], work: &mut [u32]) {
        expand_whole(family, curve, output, work);
    }

    fn convert_front(family: &Family, curve: &[u32], output: &mut [u32], work: &mut [u32]) {
        expand(family, curve, output, work);
    }
}

#[derive(Clone, Copy)]
pub struct Adjoining;

impl Conversion for Adjoining {
    ghost converted = { adjoint };

    fn convert(family: &Family, curve: &[u32], output: &mut [u32], work: &mut [u32]) {
        adjoint_whole(family, curve, output, work);
    }

    fn convert_front(family: &Family, curve: &[u32], output: &mut [u32], work: &mut [u32]) {
        adjoint(family, curve, output, work);
    }
}
