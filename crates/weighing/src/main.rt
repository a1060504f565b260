// The product law, run: both totals, with each curve expanded by each way, for R of the scope paper, for families whose c_1 has no inverse,
// and for families of 1 to 127 rows modulo a prime and modulo a composite number. A line is the modulus, the number of rows, the two ways
// and the two totals.
#![tactic(auto)]

ghost use Rattle.std.specs.Prelude.{◌≤◌, ◌<◌, length};

use definitions::Refusal;
use laws::Way;
use std::io;

// A family, and two curves on it that are weighed against one another.
#[derive(Clone, Copy)]
struct Pair<'a> {
    m: u32,
    a: &'a [u32],
    b: &'a [u32],
    c: &'a [u32],
    u: &'a [u32],
    v: &'a [u32],
    ghost least: { 0 < length u.now },
    ghost most: { length u.now ≤ 128 },
}

// Both totals for a family and its curves, in lists that are as long as the law asks; the longest is that of the moments.
fn weigh(first: Way, second: Way, pair: Pair) -> Result<(u32, u32), Refusal> {
    let n = pair.u.len();
    let count = 2 * n - 1;
    let mut s: [u32; 128] = lists::zeros();
    let mut t: [u32; 128] = lists::zeros();
    let mut moments: [u32; 255] = [0; 255];
    let mut norms: [u32; 128] = lists::zeros();
    let mut work: [u32; 16384] = [0; 16384];
    laws::product_law(
        first,
        second,
        pair.m,
        pair.a,
        pair.b,
        pair.c,
        pair.u,
        pair.v,
        &mut s[0..n],
        &mut t[0..n],
        &mut moments[0..count],
        &mut norms[0..n],
        &mut work,
    )
}

fn line(rt: &impl Print, first: Way, second: Way, pair: Pair) -> io::Result<()> {
    print!(rt; "{} {} {first} {second} ", pair.m, pair.a.len())?;
    match weigh(first, second, pair) {
        Ok((x, y)) if x == y => println!(rt; "{x} {y} equal"),
        Ok((x, y)) => println!(rt; "{x} {y} different"),
        Err(refusal) => println!(rt; "refused {} ", u32::from(refusal)),
    }
}

fn by_all_ways(rt: &impl Print, pair: Pair) -> io::Result<()> {
    for first in [Way::Plain, Way::Tree] {
        for second in [Way::Plain, Way::Tree] {
            line(rt, first, second, pair)?;
        }
    }
    Ok(())
}

// R with the curves 3 0 1 and 1 1 0.
fn on_r(rt: &impl Print) -> io::Result<()> {
    by_all_ways(
        rt,
        Pair {
            m: 7,
            a: &[1, 2],
            b: &[0, 3],
            c: &[1, 5],
            u: &[3, 0, 1],
            v: &[1, 1, 0],
        },
    )
}

// A c_1 that is 0, one that shares 7 with 35, and one that shares 3 with 15 in the only row.
fn on_first_cs(rt: &impl Print) -> io::Result<()> {
    by_all_ways(
        rt,
        Pair {
            m: 35,
            a: &[1, 3],
            b: &[0, 0],
            c: &[0, 6],
            u: &[1, 2, 3],
            v: &[4, 5, 6],
        },
    )?;
    by_all_ways(
        rt,
        Pair {
            m: 35,
            a: &[1, 3],
            b: &[0, 0],
            c: &[14, 6],
            u: &[1, 2, 3],
            v: &[4, 5, 6],
        },
    )?;
    by_all_ways(
        rt,
        Pair {
            m: 15,
            a: &[2],
            b: &[1],
            c: &[6],
            u: &[1, 2],
            v: &[3, 4],
        },
    )
}

// The powers of x modulo m, from the first on.
fn powers(m: u32, x: u32) -> [u32; 128]
    requires { 0 < m }
{
    let mut list: [u32; 128] = [0; 128];
    let mut power: u32 = 1;
    for place in &mut list {
        power = residue::product(m, power, x);
        *place = power;
    }
    list
}

// Row i is 2^i, 5^i, 3^i modulo m, and the curves are powers of 7 and of 11. 2 and 3 must have inverses modulo m.
fn on_family(rt: &impl Print, m: u32, rows: usize) -> io::Result<()>
    requires { (0 < m) × (rows < 128) }
{
    let n = rows + 1;
    let a = powers(m, 2);
    let b = powers(m, 5);
    let c = powers(m, 3);
    let u = powers(m, 7);
    let v = powers(m, 11);
    by_all_ways(
        rt,
        Pair {
            m,
            a: &a[0..rows],
            b: &b[0..rows],
            c: &c[0..rows],
            u: &u[0..n],
            v: &v[0..n],
        },
    )
}

fn on_families(rt: &impl Print, m: u32) -> io::Result<()>
    requires { 0 < m }
{
    for rows in [1, 2, 3, 4, 7, 8, 31, 64, 127] {
        on_family(rt, m, rows)?;
    }
    Ok(())
}

// 2147483647 is a prime, and 2147483645 is 5 * 19 * 22605091.
fn main(rt: HostRuntime) -> io::Result<()> {
    on_r(&rt)?;
    on_first_cs(&rt)?;
    on_families(&rt, 2147483647)?;
    on_families(&rt, 2147483645)
}
