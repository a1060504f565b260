// The plain ways, on input that is already checked: row by row, one remainder for each coefficient and no division, in local arrays.
// The family has n - 1 rows. The curve and the output are lent whole: the first n entries of the curve take part, and the first n of the
// output are written. The 1 that stands for a row's number past the rows is the closing row's.
#![tactic(auto)]

ghost use Rattle.std.specs.Prelude.{◌≡◌, List, ◌++◌, ℕ, ◌-◌, ◌<◌, ◌≤◌, length, take, drop};
ghost use Rattle.definitions.specs.Conversion.{expand, adjoint};
ghost use Rattle.definitions.specs.Family.{Curve, row_of, size};
ghost use Rattle.definitions.specs.Orthogonality.{norms};
ghost use Rattle.definitions.specs.Family as definition;
ghost use Rattle.lists.specs.Inverses.{Inverts};
ghost use Rattle.lists.specs.Lent.{lent};
ghost use Rattle.numbers.specs.Lists.{filled};
ghost use Rattle.plain.specs.Decomposing.{Decomposes, negative_product};
ghost use Rattle.plain.specs.Input.{ConvertInput, NormsCoreInput};

#[cfg(test)]
mod tests;

use lists::{Family, copy, row_entry, zeros};
use reduction::Modulus;
use residue::negative;
use row_steps::{adjoint_row, decompose_row, expand_row};

// The coefficients in powers of x, downwards (Clenshaw): after i steps current is B_{n-i}, of i coefficients, and older
// B_{n-i+1}, where B_k = u_k + (a_{k+1} x + b_{k+1}) B_{k+1} + c_{k+2} B_{k+2}. The closing row multiplies zeros.
pub fn expand(family: &Family, curve: &[u32], output: &mut [u32])
    requires { ConvertInput family.now.m family.now.a family.now.b family.now.c curve.now
        (size family.now) output.old }
    ensures { output.new
        ≡ expand family.now (take (size family.now) curve.now)
        ++ drop (size family.now) output.old }
{
    let n = family.a.len() + 1;
    let last = n - 1;
    let mut current = zeros::<128>();
    let mut older = zeros::<128>();
    for i in 0..n {
        let k = last - i;
        let x = curve[k];
        let p = row_entry(family.a, last, k, 1);
        let q = row_entry(family.b, last, k, 1);
        let r = row_entry(family.c, last, k + 1, 1);
        expand_row(family.modulus, x, p, q, r, &mut current, &mut older, i + 1);
    }
    copy(&current, n, output);
}

// The transposed of expand, upwards: after j rows current[t] is the sum of u_i times the coefficient of x^i in x^t F_j, for t below
// n - j, and older the same of F_{j-1}. Entry j of the output is the first of them.
pub fn adjoint(family: &Family, curve: &[u32], output: &mut [u32])
    requires { ConvertInput family.now.m family.now.a family.now.b family.now.c curve.now
        (size family.now) output.old }
    ensures { output.new
        ≡ adjoint family.now (take (size family.now) curve.now)
        ++ drop (size family.now) output.old }
{
    let m = family.modulus;
    let n = family.a.len() + 1;
    let last = n - 1;
    let mut current = zeros::<128>();
    let mut older = zeros::<128>();
    copy(curve, n, &mut current);
    for j in 0..n {
        output[j] = current[0];
        let p = row_entry(family.a, last, j, 1);
        let q = row_entry(family.b, last, j, 1);
        let r = row_entry(family.c, last, j, 1);
        adjoint_row(m, p, q, r, &mut current, &mut older, last - j);
    }
}

// A conversion by the plain way, on input that is already checked. convert is lent a curve and an output that are just as long as the family asks.
// From it the trait gives convert_front, which may be lent longer ones: the first n entries of the curve take part, and what lies behind the n
// first numbers of the output stays. Expanding and Adjoining write both, since expand and adjoint take longer lists by themselves.
// The tree has a trait of its own by this name: its conversions are lent a working list, which is cleared.
pub trait Conversion {
    ghost converted: { definition.Family → List ℕ → List ℕ };

    fn convert(family: &Family, curve: &[u32], output: &mut [u32])
        requires curve { Curve family.now curve.now }
        requires few { length curve.now ≤ 128 }
        requires room { length output.old ≡ length curve.now }
        ensures { output.new ≡ converted family.now curve.now };

    fn convert_front(family: &Family, curve: &[u32], output: &mut [u32])
        requires { ConvertInput family.now.m family.now.a family.now.b family.now.c curve.now
            (size family.now) output.old }
        ensures { output.new
            ≡ converted family.now (take (size family.now) curve.now)
            ++ drop (size family.now) output.old }
    {
        let n = family.a.len() + 1;
        Self::convert(family, &curve[..n], &mut output[..n]);
    }
}

#[derive(Clone, Copy)]
pub struct Expanding;

impl Conversion for Expanding {
    ghost converted = { expand };

    fn convert(family: &Family, curve: &[u32], output: &mut [u32]) {
        // What expand asks of the rows is the family's invariant, which a proof has where a field is read.
        let _ = &family.a;
        expand(family, curve, output);
    }

    fn convert_front(family: &Family, curve: &[u32], output: &mut [u32]) {
        expand(family, curve, output);
    }
}

#[derive(Clone, Copy)]
pub struct Adjoining;

impl Conversion for Adjoining {
    ghost converted = { adjoint };

    fn convert(family: &Family, curve: &[u32], output: &mut [u32]) {
        // What adjoint asks of the rows is the family's invariant, which a proof has where a field is read.
        let _ = &family.a;
        adjoint(family, curve, output);
    }

    fn convert_front(family: &Family, curve: &[u32], output: &mut [u32]) {
        adjoint(family, curve, output);
    }
}

// Each entry times the factor beside it, with the negative sign.
#[tactic(auto, using(lists::proofs::Fills::fillings), unfolding(crate::specs::Decomposing::negative_product))]
fn negative_products(m: u32, list: &[u32], factors: &[u32], output: &mut [u32])
    requires positive { 0 < m }
    requires factors { length factors.now ≡ length list.now }
    requires room { length list.now ≤ length output.old }
    ensures { output.new
        ≡ filled (negative_product m list.now factors.now) (length list.now) output.old }
{
    let modulus = Modulus::new(m);
    for i in 0..list.len() {
        output[i] = modulus.product(negative(modulus, list[i]), factors[i]);
    }
}

// The curve of coefficients in powers of x, from the top power down (Horner in the basis F): after i steps current is the curve
// of the i top powers, each lowered by n - i, and the next is x times that and a coefficient more. In the basis
// x F_i = (F_{i+1} - b_{i+1} F_i - c_{i+1} F_{i-1}) / a_{i+1}. No a is read, only its inverse: inverted has the inverses of the a in their
// place.
// The clause speaks of every a that they invert, so no `Inverted` is taken, which holds one.
pub fn decompose(inverted: &Family, coefficients: &[u32], output: &mut [u32])
    requires { ConvertInput inverted.now.m inverted.now.a inverted.now.b inverted.now.c
        coefficients.now (size inverted.now) output.old }
    ensures { Decomposes inverted.now coefficients.now output.old output.new }
{
    let n = inverted.a.len() + 1;
    // No n is greater. The compiler is told so, and leaves out its own comparisons in the rows.
    if 128 < n {
        return;
    }
    let last = n - 1;
    let mut rise = zeros::<128>();
    let mut stay = zeros::<128>();
    let mut fall = zeros::<128>();
    let mut current = zeros::<128>();
    copy(inverted.a, last, &mut rise);
    negative_products(inverted.modulus, inverted.b, inverted.a, &mut stay);
    negative_products(inverted.modulus, inverted.c, inverted.a, &mut fall);
    for i in 0..n {
        decompose_row(
            inverted.modulus,
            coefficients[last - i],
            &rise,
            &stay,
            &fall,
            &mut current,
            i + 1,
        );
    }
    copy(&current, n, output);
}

// The norms (-1)^i c_2 .. c_{i+1} / a_{i+1}, n of them; a_inverses[i] is the inverse of a_{i+1}. The closing row's numbers are handed in
// beside, and the lists may be longer than the n - 1 rows, the output than n.
// No a and no b is read, and the clause speaks of all that fit, so no `Inverted` is taken, which would ask for them.
pub fn norms(
    m: u32,
    a_inverses: &[u32],
    c: &[u32],
    close_a_inverse: u32,
    close_c: u32,
    n: usize,
    output: &mut [u32],
)
    requires { NormsCoreInput m a_inverses.now c.now n output.old }
    ensures { (a b : List ℕ) (close_a close_b : ℕ) → Inverts m 0 (n - 1) a a_inverses.now close_a close_a_inverse
        → output.new
        ≡ norms (lent m (n - 1) a b c.now (row_of close_a close_b close_c)) ++ drop n output.old }
{
    let last = n - 1;
    let modulus = Modulus::new(m);
    let mut signed: u32 = 1;
    for i in 0..n {
        let p = row_entry(a_inverses, last, i, close_a_inverse);
        output[i] = modulus.product(signed, p);
        let r = row_entry(c, last, i + 1, close_c);
        signed = modulus.product(signed, negative(modulus, r));
    }
}
