// One coefficient of a sum of two products of polynomials, or one term of a sum of two transposed products, on input that is already
// checked. A sum is kept as its low 64 bits and a count of its wraps: nothing is taken off in the loop, and one remainder ends it.
#![tactic(auto)]

ghost use Rattle.std.specs.Prelude.{◌≡◌, ◌+◌, ◌-◌, ◌*◌, ◌%◌, ◌≤◌, length};
ghost use Rattle.definitions.specs.Number.{sum};
ghost use Rattle.numbers.specs.Products.{product_at, transposed_at};
ghost use Rattle.convolution.specs.Totals.{SmallNumbers, PlusInput, Added};
ghost use Rattle.convolution.specs.Coefficients.{ProductsInput};
ghost use Rattle.convolution.specs.Steps.{transposed_term, pair_term, Reach, SinglesInput, PairsInput, TwoPairs};
ghost use Rattle.convolution.specs.Terms.{SumInput, TransposedInput};

use reduction::{Modulus, wraps_after};

// x y + u v.
fn pair(x: u32, y: u32, u: u32, v: u32) -> u64
    requires { SmallNumbers x y u v }
    ensures { result ≡ x * y + u * v }
{
    (x as u64) * (y as u64) + (u as u64) * (v as u64)
}

// A sum in progress: its low 64 bits, and how often it has wrapped.
#[derive(Drop)]
struct Total {
    low: u64,
    wraps: u64,
}

// The sum, and x besides.
fn plus(total: Total, x: u64) -> Total
    requires { PlusInput total.low total.wraps x }
    ensures { Added total.low total.wraps 1 x result.low result.wraps }
{
    let low = std::num::wrapping_add_u64(total.low, x);
    let wraps = wraps_after(total.wraps, low, x);
    Total { low, wraps }
}

// The coefficient of x^k in start + p q + r s. The loop counts from 0: of one from first to end the compiler makes slower code.
pub fn products_at(
    m: Modulus,
    start: u32,
    p: &[u32],
    q: &[u32],
    r: &[u32],
    s: &[u32],
    k: usize,
) -> u32
    requires { ProductsInput m.value start p.now q.now r.now s.now k }
    ensures { result ≡ (start + product_at p.now q.now k
        + product_at r.now s.now k) % m.value }
{
    let next = k + 1;
    let first = next.saturating_sub(q.len());
    let end = next.min(p.len());
    let count = end.saturating_sub(first);
    let mut total = Total {
        low: start as u64,
        wraps: 0,
    };
    for t in 0..count {
        let i = first + t;
        let j = k - i;
        let x = pair(p[i], q[j], r[i], s[j]);
        total = plus(total, x);
    }
    m.remainder_of_sum(total.low, total.wraps)
}

// The sum, and the p_j v_{i+j} besides.
// with_singles, with_first and with_pairs add one product a step, two and four, so they are three: four a step are quicker than two by 6 to
// 36 percent from length 64 on (docs/DECISIONS.md).
fn with_singles(total: Total, p: &[u32], v: &[u32], i: usize) -> Total
    requires { SinglesInput total.low total.wraps p.now v.now i 0 (length p.now) }
    ensures { Added total.low total.wraps (length p.now)
        (sum (length p.now) (transposed_term p.now v.now i)) result.low result.wraps }
{
    let mut sum = total;
    for j in 0..p.len() {
        let k = i + j;
        let x = pair(p[j], v[k], 0, 0);
        sum = plus(sum, x);
    }
    sum
}

// The sum, and p_0 v_i + q_0 u_i besides if odd is 1.
fn with_first(
    total: Total,
    p: &[u32],
    v: &[u32],
    q: &[u32],
    u: &[u32],
    i: usize,
    odd: usize,
) -> Total
    requires { PairsInput total.low total.wraps p.now v.now q.now u.now i odd × (odd ≤ 1) }
    ensures { Added total.low total.wraps odd
        (sum odd (pair_term p.now v.now q.now u.now i)) result.low result.wraps }
{
    if odd == 0 {
        return total;
    }
    let x = pair(p[0], v[i], q[0], u[i]);
    plus(total, x)
}

// p_j v_{i+j} + q_j u_{i+j}, and the same for j + 1.
fn two_pairs(p: &[u32], v: &[u32], q: &[u32], u: &[u32], i: usize, j: usize) -> u64
    requires { Reach p.now v.now i (j + 2) × Reach q.now u.now i (j + 2) }
    ensures { TwoPairs p.now v.now q.now u.now i j result }
{
    let k = i + j;
    let next = j + 1;
    let after = k + 1;
    let x = pair(p[j], v[k], q[j], u[k]);
    let y = pair(p[next], v[after], q[next], u[after]);
    x + y
}

// The sum, and p_j v_{i+j} + q_j u_{i+j} for j below end besides: four products a step, after the first two where end is odd.
fn with_pairs(
    total: Total,
    p: &[u32],
    v: &[u32],
    q: &[u32],
    u: &[u32],
    i: usize,
    end: usize,
) -> Total
    requires { PairsInput total.low total.wraps p.now v.now q.now u.now i end }
    ensures { Added total.low total.wraps end
        (sum end (pair_term p.now v.now q.now u.now i)) result.low result.wraps }
{
    let odd = end % 2;
    let mut sum = with_first(total, p, v, q, u, i, odd);
    for t in 0..end / 2 {
        let j = odd + 2 * t;
        let x = two_pairs(p, v, q, u, i, j);
        sum = plus(sum, x);
    }
    sum
}

// The sum over j of p_j v_{i+j}, where v reaches as far as p asks: by halves of p, so that two products make a step.
pub fn sum_at(m: Modulus, p: &[u32], v: &[u32], i: usize) -> u32
    requires { SumInput m.value p.now v.now i }
    ensures { result ≡ transposed_at p.now v.now i % m.value }
{
    let half = p.len() / 2;
    let none = Total { low: 0, wraps: 0 };
    let odd = with_singles(none, &p[half + half..], &v[half + half..], i);
    let total = with_pairs(odd, p, v, &p[half..], &v[half..], i, half);
    m.remainder_of_sum(total.low, total.wraps)
}

// Term i of the transposed products of v with p and of u with q, added up: the sum over j of p_j v_{i+j} and q_j u_{i+j}, zero past the
// end of the lists.
pub fn transposed_at(m: Modulus, p: &[u32], v: &[u32], q: &[u32], u: &[u32], i: usize) -> u32
    requires { TransposedInput m.value p.now v.now q.now u.now }
    ensures { result ≡ (transposed_at p.now v.now i
        + transposed_at q.now u.now i) % m.value }
{
    let end = v.len().saturating_sub(i).min(p.len());
    let none = Total { low: 0, wraps: 0 };
    let total = with_pairs(none, p, v, q, u, i, end);
    m.remainder_of_sum(total.low, total.wraps)
}
