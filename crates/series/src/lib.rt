// Quotients of power series, on input that is already checked. A series is a polynomial read from its top coefficient down, as the
// moments' two are: the polynomial is lent as it lies, and no list is turned round.
// n and k stand beside lists: both polynomials are local arrays of fixed length, and q is the output, of which the first k stand. The output
// may be longer than count: the rest of it stays, as the clause says.
#![tactic(auto)]

ghost use Rattle.std.specs.Prelude.{◌≡◌, ◌++◌, suc, ◌≤◌, length, get_or, drop};
ghost use Rattle.definitions.specs.Orthogonality.{next_quotient, quotient};
ghost use Rattle.series.specs.Division.{reversed, CoefficientInput, QuotientInput};

use convolution::sum_at;
use reduction::Modulus;
use residue::negative;

// Coefficient i of the reversal of the first n entries, zero past its end.
fn reversed_entry(list: &[u32], n: usize, i: usize) -> u32
    requires { n ≤ length list.now }
    ensures { result ≡ get_or (reversed n list.now) i 0 }
{
    if i < n { list[n - 1 - i] } else { 0 }
}

// Coefficient k of the quotient, from the k that stand in q: what q times the divisor lacks of the numerator, times the inverse of the
// divisor's first coefficient.
fn coefficient(
    m: Modulus,
    numerator: &[u32],
    divisor: &[u32],
    n: usize,
    inverse: u32,
    q: &[u32],
    k: usize,
) -> u32
    requires { CoefficientInput m.value numerator.now divisor.now n inverse q.now k }
    ensures { result ≡ next_quotient m.value (reversed n numerator.now) (reversed (suc n) divisor.now)
        k q.now }
{
    let first = k.saturating_sub(n);
    let at = n.saturating_sub(k);
    let sum = sum_at(m, &q[first..k], divisor, at);
    let top = reversed_entry(numerator, n, k);
    let less = negative(m, sum);
    m.product(top + less, inverse)
}

// The first count coefficients of rev(numerator, n) / rev(divisor, n + 1); inverse is that of the divisor's coefficient n.
pub fn quotient(
    m: u32,
    numerator: &[u32],
    divisor: &[u32],
    n: usize,
    inverse: u32,
    count: usize,
    output: &mut [u32],
)
    requires { QuotientInput m numerator.now divisor.now n inverse count output.old }
    ensures { output.new ≡ quotient m (reversed n numerator.now) (reversed (suc n) divisor.now) count
        ++ drop count output.old }
{
    let modulus = Modulus::new(m);
    for k in 0..count {
        output[k] = coefficient(modulus, numerator, divisor, n, inverse, output, k);
    }
}
