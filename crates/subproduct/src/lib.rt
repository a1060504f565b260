// The subproduct tree in the working list, and the ways up and down a stored tree. Vectors and scratch lie behind the tree
// (specs/Layout.antt). All recursions go by the number of pairs of rows, which is halved at each level.
// Places and counts name the parts of that list, in eight parameters and more: slices of one lent list cannot be lent side by side where one
// of them is written, and there is no heap.
#![tactic(auto)]

ghost use Rattle.std.specs.Prelude.{◌≡◌, ◌+◌, ◌*◌, ◌-◌, ◌≤◌, take};
ghost use Rattle.definitions.specs.Family.{row_of, rows};
ghost use Rattle.numbers.specs.Regions.{written};
ghost use Rattle.tree_model.specs.Tree.{padded, leaf, join, expand_pair, adjoint_pair};
ghost use Rattle.subproduct.specs.Layout.{Level, Halved, tree_list, matrix_list, pair_list, matrix_at, pair_at, lists_at};
ghost use Rattle.subproduct.specs.Leaf.{LeafInput};
ghost use Rattle.subproduct.specs.Join.{ExpandPlaces, JoinPlaces};
ghost use Rattle.subproduct.specs.Build.{BuildInput};
ghost use Rattle.subproduct.specs.Climb.{ClimbInput, ClimbOutput};
ghost use Rattle.subproduct.specs.Descend.{DescendInput, DescendOutput};
ghost use Rattle.subproduct.specs.AdjointPair.{AdjointPlaces};

use lists::{Family, entry, row_entry, store};
use products::{add_products, transposed};
use reduction::Modulus;
use residue::combine;

// The numbers that each half of the stored tree over pairs pairs of rows takes, where there are two pairs at least.
fn half_size(level: usize, pairs: usize) -> usize
    requires { Level level pairs × (2 ≤ pairs) }
    ensures { Halved level pairs result }
{
    4 * pairs * (level + 1) - 4
}

// Writes the leaf of the rows p and q at place at.
// A row's numbers come one by one: past the family's rows they are zeros, which stand in no list.
fn write_leaf(
    m: u32,
    w: &mut [u32],
    at: usize,
    pa: u32,
    pb: u32,
    pc: u32,
    qa: u32,
    qb: u32,
    qc: u32,
)
    requires { LeafInput m w.old at pa pb pc qa qb qc }
    ensures { w.new ≡ written w.old at (matrix_list (leaf m (row_of pa pb pc) (row_of qa qb qc))) }
{
    let modulus = Modulus::new(m);
    let b0 = combine(modulus, 0, qb, pc, 0, 0, 0, 0);
    let b1 = combine(modulus, 0, qa, pc, 0, 0, 0, 0);
    let c0 = combine(modulus, qc, qb, pb, 0, 0, 0, 0);
    let c1 = combine(modulus, 0, qb, pa, qa, pb, 0, 0);
    let c2 = combine(modulus, 0, qa, pa, 0, 0, 0, 0);
    store(w, at, [pc, 0, 0]);
    store(w, at + 3, [pb, pa, 0]);
    store(w, at + 6, [b0, b1, 0]);
    store(w, at + 9, [c0, c1, c2]);
}

// Writes the pair t + row matrix, n coefficients of each entry, from place target on: t is a pair of lists of tn numbers, row one of
// lists of pn, matrix has lists of qn.
fn expand_pair(
    m: u32,
    w: &mut [u32],
    target: usize,
    n: usize,
    t: usize,
    tn: usize,
    row: usize,
    pn: usize,
    matrix: usize,
    qn: usize,
)
    requires { ExpandPlaces m w.old target n t tn row pn matrix qn }
    ensures { w.new ≡ written w.old target (pair_list (expand_pair m n
        (pair_at w.old t tn) (pair_at w.old row pn) (matrix_at w.old matrix qn))) }
{
    let second = row + pn;
    let bottom = matrix + (qn + qn);
    add_products(m, w, target, n, t, tn, row, second, pn, matrix, bottom, qn);
    add_products(
        m,
        w,
        target + n,
        n,
        t + tn,
        tn,
        row,
        second,
        pn,
        matrix + qn,
        bottom + qn,
        qn,
    );
}

// Writes the right half's matrix times the left half's, n coefficients of each entry, from place target on. The halves' lists have k
// numbers.
fn join(m: u32, w: &mut [u32], target: usize, n: usize, right: usize, left: usize, k: usize)
    requires { JoinPlaces m w.old target n right left k }
    ensures { w.new ≡ written w.old target (matrix_list (join m n
        (matrix_at w.old right k) (matrix_at w.old left k))) }
{
    expand_pair(m, w, target, n, left, 0, right, k, left, k);
    expand_pair(
        m,
        w,
        target + (n + n),
        n,
        left,
        0,
        right + (k + k),
        k,
        left,
        k,
    );
}

// Writes the leaf over the rows t + 2 and t + 3 at place at.
fn build_leaf(family: &Family, w: &mut [u32], at: usize, t: usize)
    requires { BuildInput family.now (rows family.now) w.old at 0 1 t }
    ensures { w.new ≡ written w.old at (tree_list (padded family.now) 0 t) }
{
    let p = t + 1;
    let q = t + 2;
    let pa = entry(family.a, p);
    let pb = entry(family.b, p);
    let pc = entry(family.c, p);
    let qa = entry(family.a, q);
    let qb = entry(family.b, q);
    let qc = entry(family.c, q);
    write_leaf(family.modulus, w, at, pa, pb, pc, qa, qb, qc);
}

// Stores the tree over 2 pairs rows that follow row t + 1 from place at on.
pub fn build(family: &Family, w: &mut [u32], at: usize, level: usize, pairs: usize, t: usize)
    requires { BuildInput family.now (rows family.now) w.old at level pairs t }
    ensures { w.new ≡ written w.old at (tree_list (padded family.now) level t) }
{
    let m = family.modulus;
    if pairs == 1 {
        build_leaf(family, w, at, t);
        return;
    }
    let half = pairs / 2;
    let size = half_size(level, pairs);
    let right = at + size;
    let end = right + size;
    let k = pairs + 1;
    let lists = 4 * k;
    build(family, w, at, level - 1, half, t);
    build(family, w, right, level - 1, half, t + pairs);
    join(m, w, end, pairs + k, end - lists, right - lists, k);
}

// Writes the pair over the 2 pairs entries of the curve from t on, from place at on, by the tree that is stored from place tree on. The first
// n entries take part, and past them there are zeros. Behind the pair lie the pairs of both halves, and their scratch.
pub fn climb(
    m: u32,
    curve: &[u32],
    n: usize,
    w: &mut [u32],
    tree: usize,
    at: usize,
    level: usize,
    pairs: usize,
    t: usize,
)
    requires { ClimbInput m curve.now n w.old tree at level pairs t }
    ensures { ClimbOutput m (take n curve.now) w.old tree at level t w.new }
{
    if pairs == 1 {
        let x = row_entry(curve, n, t, 0);
        let y = row_entry(curve, n, t + 1, 0);
        store(w, at, [x, 0, y, 0]);
        return;
    }
    let half = pairs / 2;
    let size = half_size(level, pairs);
    let left = at + 4 * pairs;
    let right = left + 2 * pairs;
    let end = tree + size;
    let k = pairs + 1;
    climb(m, curve, n, w, tree, left, level - 1, half, t);
    climb(m, curve, n, w, end, right, level - 1, half, t + pairs);
    expand_pair(
        m,
        w,
        at,
        pairs + pairs,
        left,
        pairs,
        right,
        pairs,
        end - 4 * k,
        k,
    );
}

// Writes the pair of the right half: n terms of the transposed products of the lists at first and second with a matrix. Those lists have
// vn numbers, the matrix has lists of qn.
fn adjoint_pair(
    m: u32,
    w: &mut [u32],
    target: usize,
    n: usize,
    matrix: usize,
    qn: usize,
    first: usize,
    second: usize,
    vn: usize,
)
    requires { AdjointPlaces m w.old target n matrix qn first second vn }
    ensures { w.new ≡ written w.old target (pair_list (adjoint_pair m n
        (matrix_at w.old matrix qn) (lists_at w.old first second vn))) }
{
    let row = matrix + (qn + qn);
    transposed(m, w, target, n, matrix, matrix + qn, qn, first, second, vn);
    transposed(m, w, target + n, n, row, row + qn, qn, first, second, vn);
}

// Writes the 2 pairs entries of the answer from place at on, from the lists at first and second, by the tree that is stored from place
// tree on. The left half's entries come first, and then the right half's, whose pair lies behind its scratch.
pub fn descend(
    m: u32,
    w: &mut [u32],
    tree: usize,
    first: usize,
    second: usize,
    at: usize,
    level: usize,
    pairs: usize,
)
    requires { DescendInput m w.old tree first second at level pairs }
    ensures { DescendOutput m w.old tree first second at level w.new }
{
    if pairs == 1 {
        let x = w[first];
        let y = w[second];
        store(w, at, [x, y]);
        return;
    }
    let half = pairs / 2;
    let size = half_size(level, pairs);
    let end = tree + size;
    let pair = at + 4 * pairs;
    let k = pairs + 1;
    descend(m, w, tree, first, second, at, level - 1, half);
    adjoint_pair(
        m,
        w,
        pair,
        pairs,
        end - 4 * k,
        k,
        first,
        second,
        pairs + pairs,
    );
    descend(m, w, end, pair, pair + pairs, at + pairs, level - 1, half);
}
