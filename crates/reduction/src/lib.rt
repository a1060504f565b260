// Remainders of numbers of 64 bits without a division: by the reciprocal of the modulus, which is found once. For every
// modulus of 32 bits from 1 on and every number. Longer sums are kept as their low 64 bits and a count of how often they have
// wrapped; their remainder is for a modulus of at most 31 bits.
#![tactic(auto)]

ghost use Rattle.std.specs.Prelude.{◌≡◌, ◌+◌, ◌*◌, ◌%◌, ◌<◌, ◌≤◌};
ghost use Rattle.definitions.specs.Family.{greatest_modulus};
ghost use Rattle.reduction.specs.Reciprocal.{Reciprocal, HighHalf};
ghost use Rattle.reduction.specs.Wrapping.{WrapsAfter, Unwrapped, Shortened};

// A modulus, and its reciprocal: how often 2^64 - 1 holds it.
#[derive(Clone, Copy)]
pub struct Modulus {
    pub value: u32,
    pub reciprocal: u64,
    pub ghost is: { Reciprocal value reciprocal },
}

impl Modulus {
    pub fn new(value: u32) -> Modulus
        requires { 0 < value }
        ensures { result.value ≡ value }
    {
        let reciprocal = 18446744073709551615 / (value as u64);
        Modulus { value, reciprocal }
    }

    // The remainder of x. The quotient by the reciprocal is short by one at most, so what is left is below 2 m: of that and of that
    // less m the lesser, since a difference that wraps is the greater.
    pub fn remainder(self, x: u64) -> u32
        ensures { result ≡ x % self.value }
    {
        let m = self.value as u64;
        let quotient = high_product(x, self.reciprocal);
        let rest = x - quotient * m;
        let less = std::num::wrapping_sub_u64(rest, m);
        less.min(rest) as u32
    }

    // The remainder of x y.
    pub fn product(self, x: u32, y: u32) -> u32
        ensures { result ≡ x * y % self.value }
    {
        self.remainder((x as u64) * (y as u64))
    }

    // A count of wraps, or its remainder where it has more than 32 bits.
    fn shortened(self, wraps: u64) -> u64
        requires { self.value ≤ greatest_modulus }
        ensures { Shortened self.value wraps result }
    {
        if wraps < 4294967296 {
            wraps
        } else {
            self.remainder(wraps) as u64
        }
    }

    // The remainder of low + wraps 2^64: modulo m each 2^64 is what it leaves beside the multiple of m that the reciprocal gives.
    pub fn remainder_of_sum(self, low: u64, wraps: u64) -> u32
        requires { self.value ≤ greatest_modulus }
        ensures { result ≡ (low + wraps * 18446744073709551616) % self.value }
    {
        let spare = 18446744073709551615 - self.reciprocal * (self.value as u64) + 1;
        let more = self.shortened(wraps) * spare;
        let sum = std::num::wrapping_add_u64(low, more);
        self.remainder(unwrapped(sum, more, spare))
    }
}

// The upper 64 bits of x y, from products of halves of 32 bits. The kit's compiler makes one multiplication of just this form.
fn high_product(x: u64, y: u64) -> u64
    ensures { HighHalf x y result }
{
    let x0 = x % 4294967296;
    let x1 = x / 4294967296;
    let y0 = y % 4294967296;
    let y1 = y / 4294967296;
    let t = x0 * y0;
    let u = x1 * y0 + t / 4294967296;
    let v = x0 * y1 + u % 4294967296;
    x1 * y1 + u / 4294967296 + v / 4294967296
}

// The count of wraps after x was added and the sum is low: one more, if the sum has wrapped.
pub fn wraps_after(wraps: u64, low: u64, x: u64) -> u64
    requires { wraps < 9223372036854775808 }
    ensures { WrapsAfter wraps low x result }
{
    if low < x { wraps + 1 } else { wraps }
}

// A sum that may have wrapped, with spare in the place of the 2^64 that it then lacks.
fn unwrapped(sum: u64, last: u64, spare: u64) -> u64
    requires { last + spare < 18446744073709551616 }
    ensures { Unwrapped sum last spare result }
{
    if sum < last { sum + spare } else { sum }
}
