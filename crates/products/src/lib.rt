// Products of polynomials and transposed products, of parts of a working list and into a part of it, on input that is already checked.
// Places and counts (target, p, q, r, s, t, u, v, with n, pn, qn, tn, vn) name the parts: slices of one lent list cannot be lent side by side
// where one of them is written, and there is no heap. What only reads is handed the same places, and takes slices where it reads.
#![tactic(auto)]

ghost use Rattle.std.specs.Prelude.{◌≡◌, ◌+◌, ◌%◌, ◌≤◌, length, get_or};
ghost use Rattle.numbers.specs.Regions.{part, written};
ghost use Rattle.numbers.specs.Products.{product_at, plus_products, transposed_sum};
ghost use Rattle.products.specs.Places.{CoefficientInput, SourceInput, UsedLength, ProductPlaces};
ghost use Rattle.products.specs.Places.{TermInput, TransposedPlaces, transposed_entry};

use convolution::{products_at, transposed_at};
use reduction::Modulus;

// Entry i of the n numbers of w from place at on, and 0 past them.
// Not that of lists, which is zero past the end of the list.
fn entry(w: &[u32], at: usize, n: usize, i: usize) -> u32
    requires { at + n ≤ length w.now }
    ensures { result ≡ get_or (part w.now at n) i 0 }
{
    if i < n {
        let place = at + i;
        w[place]
    } else {
        0
    }
}

// The coefficient of x^k in start + p q + r s, where p and r are parts of pn numbers, q and s of qn.
fn coefficient(
    m: Modulus,
    w: &[u32],
    start: u32,
    p: usize,
    r: usize,
    pn: usize,
    q: usize,
    s: usize,
    qn: usize,
    k: usize,
) -> u32
    requires { CoefficientInput m.value w.now start p r pn q s qn k }
    ensures { result ≡ (start + product_at (part w.now p pn) (part w.now q qn) k
        + product_at (part w.now r pn) (part w.now s qn) k) % m.value }
{
    products_at(
        m,
        start,
        &w[p..p + pn],
        &w[q..q + qn],
        &w[r..r + pn],
        &w[s..s + qn],
        k,
    )
}

// The same, where k may lie past the end of both products.
fn coefficient_or_start(
    m: Modulus,
    w: &[u32],
    start: u32,
    p: usize,
    r: usize,
    pn: usize,
    q: usize,
    s: usize,
    qn: usize,
    k: usize,
) -> u32
    requires { SourceInput m.value w.now start p r pn q s qn }
    ensures { result ≡ (start + product_at (part w.now p pn) (part w.now q qn) k
        + product_at (part w.now r pn) (part w.now s qn) k) % m.value }
{
    if k < pn + qn {
        return coefficient(m, w, start, p, r, pn, q, s, qn, k);
    }
    start
}

// How many of the pn numbers from p on and from r on are left without the zeros at the end of both. Of one list, p is r.
pub fn used_length(w: &[u32], p: usize, r: usize, pn: usize) -> usize
    requires { (p + pn ≤ length w.now) × (r + pn ≤ length w.now) }
    ensures { UsedLength w.now p r pn result }
{
    for last in (0..pn).rev() {
        if entry(w, p, pn, last) != 0 {
            return last + 1;
        }
        if entry(w, r, pn, last) != 0 {
            return last + 1;
        }
    }
    0
}

// Writes the n first coefficients of t + p q + r s from place target on. All of them are parts of w: t has tn numbers, p and r have
// pn, q and s have qn. The zeros that end both p and r, or both q and s, are not multiplied.
pub fn add_products(
    m: u32,
    w: &mut [u32],
    target: usize,
    n: usize,
    t: usize,
    tn: usize,
    p: usize,
    r: usize,
    pn: usize,
    q: usize,
    s: usize,
    qn: usize,
)
    requires { ProductPlaces m w.old target n t tn p r pn q s qn }
    ensures { w.new ≡ written w.old target
        (plus_products m n (part w.old t tn) (part w.old p pn) (part w.old q qn)
        (part w.old r pn) (part w.old s qn)) }
{
    let modulus = Modulus::new(m);
    let used = used_length(w, p, r, pn);
    let held = used_length(w, q, s, qn);
    for k in 0..n {
        let start = entry(w, t, tn, k);
        let v = coefficient_or_start(modulus, w, start, p, r, used, q, s, held, k);
        let place = target + k;
        w[place] = v;
    }
}

// Term i of the transposed products of v with p and of u with q, added up, where p and q are parts of pn numbers, v and u of vn.
fn term(
    m: Modulus,
    w: &[u32],
    p: usize,
    q: usize,
    pn: usize,
    v: usize,
    u: usize,
    vn: usize,
    i: usize,
) -> u32
    requires { TermInput m.value w.now p q pn v u vn }
    ensures { result ≡ transposed_entry m.value w.now p q pn v u vn i }
{
    transposed_at(
        m,
        &w[p..p + pn],
        &w[v..v + vn],
        &w[q..q + pn],
        &w[u..u + vn],
        i,
    )
}

// Transposed multiplication, in one pass: writes the n first terms of the transposed products of v with p and of u with q, added up, from
// place target on. Term i is the sum over j of p_j v_{i+j} and q_j u_{i+j} modulo m, where p and q are the multipliers and v and u the lists,
// zero past their ends. All are parts of w, residues: p and q have pn numbers, v and u have vn, and they lie apart from the n wanted terms.
// Nothing else is formed or written, and the zeros that end both multipliers or both lists are not multiplied. A caller with one product
// hands in the halves of its multiplier, of pn numbers each, with the list and the list from its place pn on. Both are vn long, so zeros have
// to stand behind a list that ends sooner (`transposed-halves` in convolution, Terms).
pub fn transposed(
    m: u32,
    w: &mut [u32],
    target: usize,
    n: usize,
    p: usize,
    q: usize,
    pn: usize,
    v: usize,
    u: usize,
    vn: usize,
)
    requires { TransposedPlaces m w.old target n p q pn v u vn }
    ensures { w.new ≡ written w.old target
        (transposed_sum m n (part w.old p pn) (part w.old v vn)
        (part w.old q pn) (part w.old u vn)) }
{
    let modulus = Modulus::new(m);
    let used = used_length(w, p, q, pn);
    let held = used_length(w, v, u, vn);
    for i in 0..n {
        let x = term(modulus, w, p, q, used, v, u, held, i);
        let place = target + i;
        w[place] = x;
    }
}
