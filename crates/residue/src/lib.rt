// Arithmetic modulo m on words of 32 bits, for every modulus from 1 on, and the inverse, for every modulus.
// Arguments need not be below m, those of combine apart; the results of sum and product are. In loops a `Modulus`, which holds the
// reciprocal of m, takes the place of divisions.
#![tactic(auto)]

ghost use Rattle.std.specs.Prelude.{◌≡◌, ◌+◌, ◌*◌, ◌%◌, ◌<◌, length, get_or};
ghost use Rattle.definitions.specs.Number.{negative};
ghost use Rattle.numbers.specs.RunningProduct.{running_product};
ghost use Rattle.residue.specs.Inversion.{InversionAnswer};
ghost use Rattle.residue.specs.Summands.{Summands};

use reduction::Modulus;

// The remainder of x, of 64 bits.
// remainder, sum and product divide and need no reciprocal; those of `Modulus` go by it.
fn remainder(m: u32, x: u64) -> u32
    requires { 0 < m }
    ensures { result ≡ x % m }
{
    (x % (m as u64)) as u32
}

// The remainder of x + y.
pub fn sum(m: u32, x: u32, y: u32) -> u32
    requires { 0 < m }
    ensures { result ≡ (x + y) % m }
{
    remainder(m, x as u64 + y as u64)
}

// The remainder of x y.
pub fn product(m: u32, x: u32, y: u32) -> u32
    requires { 0 < m }
    ensures { result ≡ x * y % m }
{
    remainder(m, (x as u64) * (y as u64))
}

// What with x adds up to a multiple of m: from 1 to m, and m where x is a multiple of m.
pub fn negative(m: Modulus, x: u32) -> u32
    ensures { result ≡ negative m.value x }
{
    m.value - m.remainder(x as u64)
}

// The remainder of s + a p + b q + c r: three products of residues and one more fit 64 bits.
// The eight numbers come from different lists, and no type holds them.
pub fn combine(m: Modulus, s: u32, a: u32, p: u32, b: u32, q: u32, c: u32, r: u32) -> u32
    requires { Summands m.value s a p b q c r }
    ensures { result ≡ (s + a * p + b * q + c * r) % m.value }
{
    m.remainder(
        (s as u64) + (a as u64) * (p as u64) + (b as u64) * (q as u64) + (c as u64) * (r as u64),
    )
}

// The remainder of the product of all entries, 1 if there is none.
#[tactic(auto, using(crate::proofs::Running::running))]
pub fn running_product(m: u32, list: &[u32]) -> u32
    requires { 0 < m }
    ensures { result ≡ running_product m (λ i. get_or list.now i 0) (length list.now) }
{
    let modulus = Modulus::new(m);
    let mut result: u32 = 1;
    for i in 0..list.len() {
        result = modulus.product(result, list[i]);
    }
    result
}

// Why a number has no inverse: the greatest common factor of it and the modulus.
#[derive(Clone, Copy, Debug, PartialEq, Eq)]
pub struct SharedFactor {
    pub factor: u32,
}

// The inverse of x modulo m, by Euclid's algorithm on r = m and s = x, two steps a turn and one division a step. It keeps the
// amounts of the cofactors, whose signs take turns: modulo m, r is -t x and s is u x; and r u + s t = m, so that t and u fit.
// The loop is a `while`, since Euclid's steps are neither a count nor a walk over a list.
// Err: no number times x leaves 1, and the greatest common factor of x and m is told. No number has an inverse modulo 0 or 1.
pub fn invert(m: u32, x: u32) -> Result<u32, SharedFactor>
    ensures { InversionAnswer m x result }
{
    if m == 0 {
        return Err(SharedFactor { factor: x });
    }
    if m == 1 {
        return Err(SharedFactor { factor: 1 });
    }
    let mut r = m;
    let mut s = x;
    let mut t: u32 = 0;
    let mut u: u32 = 1;
    while 0 < s {
        t = t + r / s * u;
        r = r % s;
        if r == 0 {
            let has_inverse = s == 1;
            if has_inverse {
                return Ok(u);
            }
            return Err(SharedFactor { factor: s });
        }
        u = u + s / r * t;
        s = s % r;
    }
    if r == 1 {
        Ok(m - t)
    } else {
        Err(SharedFactor { factor: r })
    }
}
