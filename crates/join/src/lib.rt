// Leaves of the calls on two channels, on input that is already checked: signed numbers reduced modulo m, and remainders modulo m1 and m2
// joined. Of what a pair of moduli needs, the inverse of the one modulo the other is handed in, and the rest is found once for a list; an entry
// is joined without a division.
#![tactic(auto)]

ghost use Rattle.std.specs.Prelude.{◌++◌, ◌≡◌, ◌≤◌, ◌<◌, length, take, drop};
ghost use Rattle.joining.specs.Whole.{remainder, joined, joined_list};
ghost use Rattle.joining.specs.Expanding.{reduced_list};
ghost use Rattle.wholes.specs.Joined.{balanced};
ghost use Rattle.join.specs.Joining.{Paired, Prepared, Remainders, Balancing};

use reduction::Modulus;

// The remainder of a signed number. Of x below 0, -1 - x is the number k with x = -(k + 1), and no difference is too large.
pub fn reduce(m: u32, x: i32) -> u32
    requires { 0 < m }
    ensures { result ≡ remainder m x }
{
    if x < 0 {
        let k = (-1 - x) as u32;
        return m - 1 - k % m;
    }
    (x as u32) % m
}

// The remainders of a list of signed numbers, at the front of out.
pub fn reduce_list(m: u32, list: &[i32], out: &mut [u32])
    requires { (0 < m) × (length list.now ≤ length out.old) }
    ensures { out.new ≡ reduced_list m list.now ++ drop (length list.now) out.old }
{
    for i in 0..list.len() {
        out[i] = reduce(m, list[i]);
    }
}

// The number in the range of whole that leaves u: of u and what it lacks to whole the lesser, negated above the half. Of a choice between u
// and u less whole the compiler makes a branch, three times as slow where the signs are mixed.
fn balance(whole: u64, u: u64) -> i64
    requires { Balancing whole u }
    ensures { result ≡ balanced whole u }
{
    let size = u.min(whole - u) as i64;
    if whole < 2 * u { -size } else { size }
}

// The joined value of x modulo m1 and y modulo m2: x and so many m1 that y is left modulo m2, k times the gap between them. k is the inverse of m1
// modulo m2, and big a multiple of m2 not below m1.
fn join_value(m1: u32, m2: Modulus, k: u32, big: u64, x: u32, y: u32) -> i64
    requires { Prepared m1 m2.value k big × (x < m1) × (y < m2.value) }
    ensures { result ≡ joined m1 m2.value x y }
{
    let gap = (y as u64) + (big - (x as u64));
    let times = m2.remainder(gap * (k as u64));
    balance(
        (m1 as u64) * (m2.value as u64),
        (x as u64) + (m1 as u64) * (times as u64),
    )
}

// The joined values of the first entries of two lists, as many as the output has places.
pub fn join_lists(m1: u32, m2: u32, k: u32, first: &[u32], second: &[u32], output: &mut [i64])
    requires { Paired m1 m2 k × Remainders m1 m2 first.now second.now (length output.old) }
    ensures { output.new
        ≡ joined_list m1 m2 (take (length output.old) first.now) (take (length output.old) second.now) }
{
    let big = (m1 as u64) + ((m2 - m1 % m2) as u64);
    let modulus = Modulus::new(m2);
    for i in 0..output.len() {
        output[i] = join_value(m1, modulus, k, big, first[i], second[i]);
    }
}
