// The two totals of the product law, one remainder for each term. Lists are lent whole, with n: the first n entries take part, and
// of the moments the first 2n - 1. Entries need not be below m.
// The clauses speak of the first n of longer lists too, so n stands beside them.
#![tactic(auto)]

ghost use Rattle.std.specs.Prelude.{◌≡◌};
ghost use Rattle.definitions.specs.Orthogonality.{moment_total, norm_total};
ghost use Rattle.totals.specs.Totals.{row_total, RowTotalInput, MomentTotalInput, NormTotalInput};

use residue::{product, sum};

// The entries of t weighed with the moments from i on.
fn row_total(m: u32, n: usize, t: &[u32], moment: &[u32], i: usize) -> u32
    requires { RowTotalInput m n t.now moment.now i }
    ensures { result ≡ row_total m n t.now moment.now i }
{
    let mut total: u32 = 0;
    for j in 0..n {
        total = sum(m, total, product(m, t[j], moment[i + j]));
    }
    total
}

// The uncut product of s and t, weighed with the moments: s_i t_j meets the moment at i + j.
pub fn moment_total(m: u32, n: usize, s: &[u32], t: &[u32], moment: &[u32]) -> u32
    requires { MomentTotalInput m n s.now t.now moment.now }
    ensures { result ≡ moment_total m n s.now t.now moment.now }
{
    let mut total: u32 = 0;
    for i in 0..n {
        total = sum(m, total, product(m, s[i], row_total(m, n, t, moment, i)));
    }
    total
}

// The products of the entries of u and v, weighed with the norms.
pub fn norm_total(m: u32, n: usize, u: &[u32], v: &[u32], norm: &[u32]) -> u32
    requires { NormTotalInput m n u.now v.now norm.now }
    ensures { result ≡ norm_total m n u.now v.now norm.now }
{
    let mut total: u32 = 0;
    for i in 0..n {
        total = sum(m, total, product(m, product(m, u[i], v[i]), norm[i]));
    }
    total
}
