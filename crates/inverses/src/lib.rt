// The inverses of the entries of a list modulo m from a place on, from one inverse where the product of all has one; and one product by
// which to tell whether all entries of two lists have inverses, and two numbers more.
// A list is lent with a count of entries, n or count, since the places of the output past it stay, as the clauses say.
#![tactic(auto)]

ghost use Rattle.std.specs.Prelude.{◌≡◌, ◌+◌, ◌<◌, ◌≤◌, length, get_or};
ghost use Rattle.definitions.specs.Number as Number;
ghost use Rattle.numbers.specs.Lists.{filled};
ghost use Rattle.numbers.specs.RunningProduct.{running_product};
ghost use Rattle.inverses.specs.Joint.{Joint};
ghost use Rattle.inverses.specs.Range.{inverse_from};
ghost use Rattle.inverses.specs.Sharing.{Sharable};

use reduction::Modulus;
use residue::{invert, running_product};

// The inverse of x modulo m, and 0 where there is none.
fn inverse_or_zero(m: u32, x: u32) -> u32
    ensures { result ≡ Number.inverse m x }
{
    invert(m, x).unwrap_or(0)
}

#[tactic(auto, using(lists::proofs::Fills::fillings, residue::proofs::Running::running))]
fn one_by_one(m: u32, list: &[u32], n: usize, output: &mut [u32])
    requires { (n ≤ length list.now) × (n ≤ length output.old) }
    ensures { output.new ≡ filled (λ i. Number.inverse m (get_or list.now i 0)) n output.old }
{
    for i in 0..n {
        output[i] = inverse_or_zero(m, list[i]);
    }
}

// Leaves the product of the entries before i at place i, for the first n places, and answers the product of all n.
#[tactic(auto, using(lists::proofs::Fills::fillings, residue::proofs::Running::running))]
fn running_products(m: u32, list: &[u32], n: usize, output: &mut [u32]) -> u32
    requires { (0 < m) × (n ≤ length list.now) × (n ≤ length output.old) }
    ensures { (result ≡ running_product m (λ i. get_or list.now i 0) n)
        × (output.new ≡ filled (running_product m (λ i. get_or list.now i 0)) n output.old) }
{
    let modulus = Modulus::new(m);
    let mut whole: u32 = 1;
    for i in 0..n {
        output[i] = whole;
        whole = modulus.product(whole, list[i]);
    }
    whole
}

// From the product before each entry, and the inverse of the product of all, the inverse of each: the last entry first.
fn share_inverse(m: u32, list: &[u32], n: usize, inverse: u32, output: &mut [u32])
    requires { Sharable m list.now n inverse output.old }
    ensures { output.new ≡ filled (λ i. Number.inverse m (get_or list.now i 0)) n output.old }
{
    let modulus = Modulus::new(m);
    let mut shared = inverse;
    for i in (0..n).rev() {
        output[i] = modulus.product(shared, output[i]);
        shared = modulus.product(shared, list[i]);
    }
}

// The inverses of the first n entries, each 0 where there is none.
fn all_inverses(m: u32, list: &[u32], n: usize, output: &mut [u32])
    requires { (n ≤ length list.now) × (n ≤ length output.old) }
    ensures { output.new ≡ filled (λ i. Number.inverse m (get_or list.now i 0)) n output.old }
{
    if m < 2 {
        one_by_one(m, list, n, output);
        return;
    }
    let whole = invert(m, running_products(m, list, n, output));
    let Ok(inverse) = whole else {
        one_by_one(m, list, n, output);
        return;
    };
    share_inverse(m, list, n, inverse, output);
}

// The inverses of the entries from place first to n - 1, each 0 where there is none, and 0 at the places below first.
#[tactic(auto, using(lists::proofs::Fills::fillings, residue::proofs::Running::running))]
pub fn of_list(m: u32, list: &[u32], first: usize, n: usize, output: &mut [u32])
    requires { (n ≤ length list.now) × (n ≤ length output.old) }
    ensures { output.new ≡ filled (inverse_from m first list.now) n output.old }
{
    let count = n.saturating_sub(first);
    let start = n - count;
    for i in 0..start {
        output[i] = 0;
    }
    all_inverses(m, &list[start..], count, &mut output[start..]);
}

// A product of x and all entries of a, and of y and all entries of c, modulo m. Four products run side by side, each of every second
// entry of a list, since a product waits for the one before it.
pub fn joint_product(m: u32, a: &[u32], x: u32, c: &[u32], y: u32) -> u32
    requires { 0 < m }
    ensures { Joint m a.now x c.now y result }
{
    let modulus = Modulus::new(m);
    let pairs = a.len().min(c.len()) / 2;
    let mut p = x;
    let mut q: u32 = 1;
    let mut s = y;
    let mut t: u32 = 1;
    for k in 0..pairs {
        let i = 2 * k;
        let j = 2 * k + 1;
        p = modulus.product(p, a[i]);
        q = modulus.product(q, a[j]);
        s = modulus.product(s, c[i]);
        t = modulus.product(t, c[j]);
    }
    let rest = 2 * pairs;
    let first = modulus.product(modulus.product(p, q), running_product(m, &a[rest..]));
    let second = modulus.product(modulus.product(s, t), running_product(m, &c[rest..]));
    modulus.product(first, second)
}
