// The public calls by the plain way, Norms, and Inverse. Each makes every test itself, ends on every input, and either converts or refuses
// with the scope paper's number and touches nothing: none has a 'requires', and each has one 'ensures' that settles answer and output on
// every input.
// m, a, b and c come apart, and lists as `&[u32]`: the form that the scope paper names, of calls that README and docs/ name.
#![tactic(auto)]

ghost use Rattle.std.specs.Prelude.{[]};
ghost use Rattle.definitions.specs.Answers.{answered, inverse_answered, inverse_handed, factor_handed, InverseCall, PlainCall, NormsCall};
ghost use Rattle.definitions.specs.Conversion.{expand, adjoint, decompose};
ghost use Rattle.definitions.specs.Family.{family};

use definitions::{NotInverted, Refusal};
use lists::Family;
use plain::{Adjoining, Conversion, Expanding};

// Inverse: the number below m that times x leaves 1 modulo m, and the greatest common factor of x and m, which is then 1.
// Refused with 3: m is out of its range; with 12: x is not below m; with 13: x has no inverse, and the factor tells why: m where x is zero.
pub fn invert(m: u32, x: u32) -> Result<u32, NotInverted>
    ensures { InverseCall m x (inverse_answered result) [] (inverse_handed result) [] (factor_handed result) }
{
    verdicts::inverse(m, x)
}

// A conversion by the plain way: its tests, and then its core.
// tree_calls has one of its own: it is lent a working list, and makes test 8.
fn call<C: Conversion>(
    m: u32,
    a: &[u32],
    b: &[u32],
    c: &[u32],
    curve: &[u32],
    output: &mut [u32],
) -> Result<(), Refusal>
    ensures { PlainCall C.converted (family m a.now b.now c.now) curve.now (answered result)
        output.old output.new }
{
    verdicts::plain(m, a, b, c, curve, output.len())?;
    let family = Family {
        modulus: m,
        a,
        b,
        c,
    };
    C::convert_front(&family, curve, output);
    Ok(())
}

// Expand, row by row: from a curve the n coefficients, in powers of x, of the sum of its entries times F_i.
// Refused with 3 to 7: m, the lists or their lengths are not in order (the station's program); with 9, 17, 10, 18 and 11: an entry of the
// family is not below m, or an a, or a c from row 2 on, has no inverse, 17 and 18 where the lowest such row has a zero (the maker of the
// element); with 12: a curve entry is not below m (the
// sender of the curve).
pub fn plain_expand(
    m: u32,
    a: &[u32],
    b: &[u32],
    c: &[u32],
    curve: &[u32],
    output: &mut [u32],
) -> Result<(), Refusal>
    ensures { PlainCall expand (family m a.now b.now c.now) curve.now (answered result)
        output.old output.new }
{
    call::<Expanding>(m, a, b, c, curve, output)
}

// Adjoint (transposed expand), row by row: entry j is the sum over i of curve entry i times the coefficient of x^i in F_j.
// Refused as plain_expand is.
pub fn plain_adjoint(
    m: u32,
    a: &[u32],
    b: &[u32],
    c: &[u32],
    curve: &[u32],
    output: &mut [u32],
) -> Result<(), Refusal>
    ensures { PlainCall adjoint (family m a.now b.now c.now) curve.now (answered result)
        output.old output.new }
{
    call::<Adjoining>(m, a, b, c, curve, output)
}

// Decompose, from the top power: from n coefficients in powers of x the one curve that Expand turns into them.
// Refused as plain_expand is, with the coefficients in the curve's place.
pub fn plain_decompose(
    m: u32,
    a: &[u32],
    b: &[u32],
    c: &[u32],
    coefficients: &[u32],
    output: &mut [u32],
) -> Result<(), Refusal>
    ensures { PlainCall decompose (family m a.now b.now c.now) coefficients.now (answered result)
        output.old output.new }
{
    verdicts::plain(m, a, b, c, coefficients, output.len())?;
    let rows = a.len();
    let mut a_inverses = lists::zeros::<128>();
    inverses::of_list(m, a, 0, rows, &mut a_inverses);
    let inverted = Family {
        modulus: m,
        a: &a_inverses[..rows],
        b,
        c,
    };
    plain::decompose(&inverted, coefficients, output);
    Ok(())
}

// Norms: d_i = (-1)^i c_2 .. c_{i+1} / a_{i+1} for i from 0 to n - 1, with the closing row 1 1 1 as row n.
// Refused with 3, 4, 5 and 7 (the station's program), and with 9, 17, 10, 18 and 11 (the maker of the element).
pub fn norms(m: u32, a: &[u32], b: &[u32], c: &[u32], output: &mut [u32]) -> Result<(), Refusal>
    ensures { NormsCall (family m a.now b.now c.now) (answered result)
        output.old output.new }
{
    verdicts::norms(m, a, b, c, output.len())?;
    let mut a_inverses = lists::zeros::<128>();
    inverses::of_list(m, a, 0, a.len(), &mut a_inverses);
    plain::norms(m, &a_inverses, c, 1, 1, a.len() + 1, output);
    Ok(())
}
